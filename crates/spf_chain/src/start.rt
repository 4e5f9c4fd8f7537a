//! Starts a chain: makes cells for the blocks of a construct, and hands out the tickets of all
//! blocks.
ghost use Rattle.std.specs.Prelude.{◌≡◌, ◌+◌, ◌≤◌, ◌<◌, ◌+ℤ◌, ◌≤ℤ◌, length, pos, replicate, None};
ghost use Rattle.std.specs.Prelude.{IfOk, Some, slice_get};
ghost use Rattle.spf_ast.specs.Meaning.{max_blocks};
ghost use Rattle.std.specs.List.{All};
ghost use Rattle.spf_ast.specs.View.{program as seen_program};
ghost use Rattle.spf_ast.specs.Construct.{constructs_in};
ghost use Rattle.spf_ast.specs.Construct as construct_names;
ghost use Rattle.spf_ast.specs.Program.{cell_count_of};
ghost use Rattle.spf_exec_instance.specs.Frame.{frame_size};
ghost use Rattle.spf_exec_instance.specs.Instance.{program_of};
ghost use Rattle.spf_check.specs.Plans.{AreBlocksOf};
ghost use Rattle.spf_cells.specs.Made.{new_lanes};
ghost use Rattle.spf_speculation_entry.specs.declared.site.Site.{Site as SeenSite};
ghost use Rattle.spf_chain.specs.Beginning.{IsBegin, begun, guesses_for, unvalidated, site_of};
ghost use Rattle.spf_chain.specs.Beginning.{IsFirstTicket, AreFirstTickets, IsStarted};

use crate::block::{ChainBlock, Settled};
use crate::cells::cells_for;
use crate::chain::Chain;
use crate::validation::Validation;
use spf_ast::row::Row;
use spf_cells::cells::Cells;
use spf_cells::lane::Lane;
use spf_cells::warden::Warden;
use spf_cells_key::key::{GhostKey, ghost_key};
use spf_check::checked::Checked;
use spf_exec::frame::Frame;
use spf_exec::pieces::Header;
use spf_exec_instance::instance::Instance;
use spf_guess_statistics::guess::Guess;
use spf_speculation_entry::site::Site;
use spf_ticket::ticket::{Report, Ticket};
use std::alloc::{AllocError, Global};

/// A key with the site that the caller names. The ghost argument of a call may mention only the
/// call's other arguments, so they are passed here though nothing reads them.
fn key_of_site(
    instance: &Instance,
    construct: u32,
    header: &Header,
    frame: &Frame,
    entry: &[i64],
    guesses: &[Guess],
) -> GhostKey<Site>
    ghost named: { SeenSite }
    ensures { result.value ≡ named }
{
    let _ = instance;
    let _ = construct;
    let _ = header;
    let _ = frame;
    let _ = entry;
    let _ = guesses;
    ghost_key::<Site>()
}

/// Each byte is below 256. A proof knows the range of an element once the element is read.
fn are_bytes(input: &[u8])
    ensures { All (λ b. b < 256) input.now }
{
    for byte in input {
        let _byte = *byte;
    }
}

/// Each block with its guess and the row of its first attempt.
fn blocks_of(alloc: Global, start: Row, guesses: &[Guess]) -> Result<Vec<ChainBlock>, AllocError>
    requires { length guesses.now ≤ 4095 }
    ensures { IfOk result (λ r. r.items ≡ unvalidated 0 start (guesses_for guesses.now)) }
{
    let mut blocks = Vec::with_capacity(alloc, guesses.len() + 1)?;
    blocks.push(ChainBlock {
        block: 0,
        guess: None,
        row: start,
    })?;
    for guess in guesses {
        let block = blocks.len() as u64;
        blocks.push(ChainBlock {
            block,
            guess: Some(guess.value),
            row: guess.value,
        })?;
    }
    Ok(blocks)
}

/// `count` homes without a report.
fn empty_homes(alloc: Global, count: usize) -> Result<Vec<Option<Report>>, AllocError>
    ensures { IfOk result (λ homes. homes.items ≡ replicate count None) }
{
    let mut homes = Vec::with_capacity(alloc, count)?;
    for _ in 0..count {
        homes.push(None)?;
    }
    Ok(homes)
}

/// The number of the block at an index.
fn number_at(low: i64, block: usize) -> i64
    requires few { block ≤ max_blocks }
    requires fits { (low +ℤ pos block) ≤ℤ i64.MAX }
    ensures { result ≡ low +ℤ pos block }
{
    low + block as i64
}

/// The ticket of the first attempt of a block, with this lane and a frame of its own.
fn first_ticket(
    alloc: Global,
    lane: Lane,
    blocks: &[ChainBlock],
    block: usize,
    low: i64,
    frame: &Frame,
) -> Result<Ticket, AllocError>
    requires lane { lane.block ≡ block }
    requires inside { block < length blocks.now }
    requires few { length blocks.now ≤ max_blocks }
    requires fits { (low +ℤ pos (length blocks.now)) ≤ℤ i64.MAX }
    ensures { IfOk result (IsFirstTicket lane low blocks.now frame.now block) }
{
    let number = number_at(low, block);
    let own = frame.copy(alloc)?;
    Ok(Ticket::make(block as u64, number, blocks[block].row, lane, own))
}

/// The tickets of the first attempts of these blocks, in their order.
fn tickets_of(
    alloc: Global,
    cells: &Cells,
    lanes: Vec<Lane>,
    blocks: &[ChainBlock],
    low: i64,
    frame: &Frame,
) -> Result<Vec<Ticket>, AllocError>
    requires lanes { lanes.items ≡ new_lanes cells.now 0 (length blocks.now) }
    requires few { length blocks.now ≤ max_blocks }
    requires fits { (low +ℤ pos (length blocks.now)) ≤ℤ i64.MAX }
    ensures { IfOk result
        (λ r. AreFirstTickets cells.now low blocks.now frame.now (length blocks.now) r.items) }
{
    let _ = cells;
    let mut tickets = Vec::with_capacity(alloc, blocks.len())?;
    for lane in lanes {
        let block = tickets.len();
        tickets.push(first_ticket(alloc, lane, blocks, block, low, frame)?)?;
    }
    Ok(tickets)
}

impl Chain {
    /// The chain of a site when it starts: the tickets of all blocks are out, and no flag is
    /// raised. All memory is allocated here.
    fn begin(
        alloc: Global,
        site: GhostKey<Site>,
        warden: Warden,
        start: Row,
        guesses: &[Guess],
    ) -> Result<Chain, AllocError>
        requires { IsBegin site.value warden start guesses.now }
        ensures { IfOk result (λ c. c ≡ begun site.value warden) }
    {
        // Law: the plain run stands where the validated prefix leaves it.
        spf_speculation::laws::prefixes_grow();
        let blocks = blocks_of(alloc, start, guesses)?;
        let homes = empty_homes(alloc, blocks.len())?;
        let room = Vec::with_capacity(alloc, blocks.len())?;
        let validation = Validation {
            blocks,
            count: 0,
            settled: Settled::Carried(start),
        };
        Ok(Chain {
            site,
            warden,
            homes,
            room,
            again: false,
            validation,
            reports: 0,
        })
    }

    /// Starts the blocks of a top construct whose header is done: makes the cells of what they may
    /// write, and gives the chain and the ticket of each block in the order of blocks.
    ///
    /// `construct` is its number among the top constructs; `frame` and `entry` are the slots and
    /// the memory at its entry; there is a guess for each block but the first. The ticket of block
    /// 0 begins at the header's start row, that of any other block at its guess. The mispredicted
    /// blocks are those that may be raised; no code computes which ones. All memory is taken here.
    ///
    /// # Errors
    ///
    /// `AllocError` where there is no memory for it.
    pub fn start(
        alloc: Global,
        checked: &Checked,
        instance: &Instance,
        construct: u32,
        header: Header,
        frame: &Frame,
        entry: &[i64],
        guesses: &[Guess],
    ) -> Result<(Chain, Cells, Vec<Ticket>), AllocError>
        requires program { program_of instance.now ≡ seen_program checked.now }
        requires construct { (c : construct_names.Construct)
            × (slice_get (constructs_in (program_of instance.now).main) construct ≡ Some c)
            × AreBlocksOf c header.blocks }
        requires guesses { length guesses.now + 1 ≡ header.blocks }
        requires few { header.blocks ≤ max_blocks }
        requires fits { (header.low +ℤ pos header.blocks) ≤ℤ i64.MAX }
        requires frame { length frame.now ≡ frame_size (program_of instance.now) }
        requires entry { length entry.now
            ≡ cell_count_of (program_of instance.now) (length instance.now.input) }
        ensures { IfOk result (λ r. IsStarted
            (site_of instance.now construct header frame.now entry.now guesses.now) r.0 r.1
            r.2.items) }
    {
        // Law: blocks with ascending spans have no cell in common.
        spf_cells::laws::ascending_plans_are_disjoint();
        are_bytes(instance.input());
        let _program = checked.program();
        let site = key_of_site(instance, construct, &header, frame, entry, guesses);
        let layout = instance.layout();
        let plan = checked.plan(alloc, construct, layout, header.low, header.blocks)?;
        let (cells, warden, lanes) = cells_for(alloc, &site, entry, &plan)?;
        let chain = Chain::begin(alloc, site, warden, header.start, guesses)?;
        let tickets = tickets_of(
            alloc,
            &cells,
            lanes,
            &chain.validation.blocks,
            header.low,
            frame,
        )?;
        Ok((chain, cells, tickets))
    }
}
