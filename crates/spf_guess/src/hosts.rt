//! The predictors that the caller supplies, as a list; the first of them is host 0.
ghost use Rattle.std.specs.Prelude.{◌≡◌, ◌<◌, ◌++◌, ◌∷◌, [], List, map, length};
ghost use Rattle.spf_guess_statistics.specs.Guess.{Hosts, Telling, told_to};
ghost use Rattle.spf_guess.specs.Answers.{AnswersAlike, WasTold, WereTold, supplied};
ghost use Rattle.spf_guess.specs.Answers.{WereToldNoMore};

use crate::Predictor;

/// What this host guesses for a block.
fn ask_one(host: &mut Box<dyn Predictor>, block: i64) -> i64
    ensures answer { result ≡ answer host.old [] block }
    ensures same { AnswersAlike (answer host.old) (answer host.new) }
{
    host.guess(block)
}

/// Tells this host a real part of a block's row.
fn tell_one(host: &mut Box<dyn Predictor>, block: i64, real: i64)
    ensures told { WasTold (answer host.old) (record { block = block; real = real })
        (answer host.new) }
{
    host.tell(block, real)
}

/// Returns what a host guesses for the block of this number: the answer of the host as it was at
/// first, after all that it has been told since.
pub fn ask(hosts: &mut Vec<Box<dyn Predictor>>, host: u64, block: i64) -> i64
    requires { host < length hosts.old.items }
    ensures guess { (before : Hosts) (telling : List Telling)
        → WereTold before telling (supplied answer hosts.old.items)
        → result ≡ before host (told_to host telling) block }
    ensures told { WereToldNoMore (supplied answer hosts.old.items)
        (supplied answer hosts.new.items) }
    ensures count { length hosts.new.items ≡ length hosts.old.items }
{
    ask_one(&mut hosts[host as usize], block)
}

/// Tells a host the real value of a part of the row at which the block of this number began.
pub fn tell(hosts: &mut Vec<Box<dyn Predictor>>, host: u64, block: i64, real: i64)
    requires { host < length hosts.old.items }
    ensures told { (before : Hosts) (telling : List Telling)
        → WereTold before telling (supplied answer hosts.old.items)
        → WereTold before
        (telling ++ record { host = host; told = record { block = block; real = real } } ∷ [])
        (supplied answer hosts.new.items) }
    ensures count { length hosts.new.items ≡ length hosts.old.items }
{
    tell_one(&mut hosts[host as usize], block, real)
}
