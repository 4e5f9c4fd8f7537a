//! What hosts are told after a construct.
ghost use Rattle.std.specs.Prelude.{◌≡◌, ◌<◌, ◌≤◌, ◌+◌, ◌++◌, ◌+ℤ◌, ◌≤ℤ◌, ◌∷◌, [], List, length};
ghost use Rattle.std.specs.Prelude.{map, pos};
ghost use Rattle.spf_ast.specs.Meaning.{max_blocks};
ghost use Rattle.spf_ast.specs.ConstructView.{construct as seen_construct};
ghost use Rattle.spf_ast.specs.View.{predictor as seen_predictor};
ghost use Rattle.spf_exec.specs.Pieces.{seen_header};
ghost use Rattle.spf_guess_statistics.specs.Guess.{Hosts, Telling, tells, tells_from, tells_part};
ghost use Rattle.spf_guess_statistics.specs.Guess.{tells_row};
ghost use Rattle.spf_guess.specs.Answers.{supplied, WereTold};
ghost use Rattle.spf_guess.specs.Missing.{AreAllHandedIn};
ghost use Rattle.spf_engine_construct.specs.Guesses.{IsHandedIn};

use crate::guesses::number_at;
use spf_ast::construct::TopConstruct;
use spf_ast::row::Row;
use spf_ast::syntax::Predict;
use spf_exec::pieces::Header;
use spf_guess::Predictor;
use spf_guess::hosts::tell;

/// Tells a part of the real row of a block to the host that guessed it, where one did.
fn tell_part(predictor: &Predict, number: i64, word: i64, hosts: &mut Vec<Box<dyn Predictor>>)
    requires handed_in { AreAllHandedIn (length hosts.old.items)
        (seen_predictor predictor.now ∷ []) }
    ensures told { (before : Hosts) (telling : List Telling)
        → WereTold before telling (supplied answer hosts.old.items)
        → WereTold before (telling ++ tells_part (seen_predictor predictor.now) number word)
        (supplied answer hosts.new.items) }
    ensures count { length hosts.new.items ≡ length hosts.old.items }
{
    if let Predict::Host(host) = predictor {
        tell(hosts, *host, number, word);
    }
}

/// Tells the parts of the real row of a block to the hosts that guessed them, from left to right.
fn tell_row(predictors: &[Predict], number: i64, row: &Row, hosts: &mut Vec<Box<dyn Predictor>>)
    requires handed_in { AreAllHandedIn (length hosts.old.items)
        (map seen_predictor predictors.now) }
    ensures told { (before : Hosts) (telling : List Telling)
        → WereTold before telling (supplied answer hosts.old.items)
        → WereTold before (telling ++ tells_row (map seen_predictor predictors.now) number row.now)
        (supplied answer hosts.new.items) }
    ensures count { length hosts.new.items ≡ length hosts.old.items }
{
    let words = row.words();
    for index in 0..predictors.len().min(words.len()) {
        tell_part(&predictors[index], number, words[index], hosts);
    }
}

/// Tells hosts the parts of the real rows of blocks that they guessed, in order; the first of the
/// blocks has index 1.
fn tell_from_one(
    predictors: &[Predict],
    header: &Header,
    others: &[Row],
    hosts: &mut Vec<Box<dyn Predictor>>,
)
    requires handed_in { AreAllHandedIn (length hosts.old.items)
        (map seen_predictor predictors.now) }
    requires few { length others.now < max_blocks }
    requires fits { (header.now.low +ℤ pos (length others.now + 1)) ≤ℤ i64.MAX }
    ensures told { (before : Hosts) (telling : List Telling)
        → WereTold before telling (supplied answer hosts.old.items)
        → WereTold before (telling
        ++ tells_from (map seen_predictor predictors.now) (header.now.low +ℤ pos 1)
        others.now) (supplied answer hosts.new.items) }
    ensures count { length hosts.new.items ≡ length hosts.old.items }
{
    for index in 0..others.len() {
        let number = number_at(header, index as u64 + 1);
        tell_row(predictors, number, &others[index], hosts);
    }
}

/// Tells the hosts that guessed the blocks of a construct the real rows of all blocks that have one
/// but the first, in order, and each host those parts that it guessed, from left to right.
pub fn tell_history(
    construct: TopConstruct,
    header: &Header,
    reals: &[Row],
    hosts: &mut Vec<Box<dyn Predictor>>,
)
    requires host { IsHandedIn (length hosts.old.items) (seen_construct construct) }
    requires few { length reals.now ≤ header.now.blocks }
    requires few_blocks { header.now.blocks ≤ max_blocks }
    requires fits { (header.now.low +ℤ pos header.now.blocks) ≤ℤ i64.MAX }
    ensures told { (before : Hosts) (telling : List Telling)
        → WereTold before telling (supplied answer hosts.old.items)
        → WereTold before (telling
        ++ tells (seen_construct construct.entry) (seen_header header.now) reals.now)
        (supplied answer hosts.new.items) }
    ensures count { length hosts.new.items ≡ length hosts.old.items }
{
    if let Some((_, others)) = reals.split_first() {
        tell_from_one(construct.predictors(), header, others, hosts);
    }
}
