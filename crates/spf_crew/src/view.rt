//! What a seat of the crew's table knows: plain data that occurs in proofs and contracts alone. No
//! value of these types is made at run time.
use spf_cells::cells::Cells;
use spf_speculation_entry::site::Site;

/// What is fixed for one crew.
pub struct CrewSetting {
    /// The site of its chain.
    pub site: Site,
    /// The cells of its chain.
    pub cells: Cells,
    /// How many mates it has.
    pub mates: u64,
}

/// What a seat knows.
pub struct CrewView {
    /// What is fixed. A seat that was joined to another one knows nothing of it.
    pub setting: Option<CrewSetting>,
    /// The seat has the numbers of mates from this one on ..
    pub from: u64,
    /// .. up to but excluding this one. With no number it holds nothing.
    pub to: u64,
    /// The sequence number that it saw last.
    pub seen: u64,
    /// Whether it holds the chain.
    pub holds: bool,
    /// Whether it holds the chain, and the end is announced.
    pub announced: bool,
    /// Whether it has read 1 in the ending word.
    pub read: bool,
}
