//! What attempts of a block are read with.
use spf_exec::frame::Frame;
use spf_exec_instance::instance::Instance;
use spf_region::span::Span;

/// What attempts of a block are read with, beside its log: the program with its input, the frame
/// and the words of all cells at the construct's entry, and the spans of the block.
#[derive(Clone, Copy)]
pub(crate) struct BlockContext<'a> {
    pub(crate) instance: &'a Instance<'a>,
    pub(crate) frame: &'a Frame,
    pub(crate) entry: &'a [i64],
    pub(crate) spans: &'a [Span],
}
