//! The rule of the crew's table, and what each step on it tells the seat that makes it.
use crate::view::{CrewSetting, CrewView};
use atomic_table::{Join, Play, Seat, Split, Table, TableRule};
use spf_cells_key::key::GhostKey;
use spf_chain::chain::Chain;
use std::alloc::Global;

/// The rule, which holds at every moment, and the first view.
pub struct CrewRule;

impl TableRule<Option<Chain>, CrewView, GhostKey<CrewSetting>> for CrewRule {
    ghost use Rattle.spf_crew.specs.Rule.{IsCrewTable, first};

    ghost holds = { λ t. IsCrewTable t.value };

    ghost first = { λ t. first t.value };
}

/// A try to take the chain.
pub struct Takes;

impl Play<Option<Chain>, CrewView> for Takes {
    ghost use Rattle.spf_crew.specs.Rule.{IsTake};

    ghost then = { IsTake };
}

/// A step on the sequence word that leaves it as it is.
pub struct Looks;

impl Play<Option<Chain>, CrewView> for Looks {
    ghost use Rattle.spf_crew.specs.Rule.{IsLook};

    ghost then = { IsLook };
}

/// The step that announces the end.
pub struct Announces;

impl Play<Option<Chain>, CrewView> for Announces {
    ghost use Rattle.spf_crew.specs.Rule.{IsAnnounce};

    ghost then = { IsAnnounce };
}

/// The step that gives the chain back.
pub struct Gives;

impl Play<Option<Chain>, CrewView> for Gives {
    ghost use Rattle.spf_crew.specs.Rule.{IsGive};

    ghost then = { IsGive };
}

/// The step that reads the ending word.
pub struct Reads;

impl Play<Option<Chain>, CrewView> for Reads {
    ghost use Rattle.spf_crew.specs.Rule.{IsRead};

    ghost then = { IsRead };
}

/// The step that gives a new mate the first number of the seat that is split.
pub struct Enlists;

impl Split<CrewView> for Enlists {
    ghost use Rattle.spf_crew.specs.Rule.{after_enlisting, enlisted};

    ghost left = { after_enlisting };

    ghost right = { enlisted };
}

/// The step that takes over the numbers of another mate.
pub struct Dismisses;

impl Join<CrewView> for Dismisses {
    ghost use Rattle.spf_crew.specs.Rule.{after_dismissing, spent_view};

    ghost both = { after_dismissing };

    ghost spent = { spent_view };
}

/// The table of the sequence word, the ending word and the chain.
pub type CrewTable = Table<Option<Chain>, CrewView, GhostKey<CrewSetting>, CrewRule, Global>;

/// A mate's seat on it.
pub type CrewSeat = Seat<Option<Chain>, CrewView>;
