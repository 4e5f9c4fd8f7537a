//! Laws of the format. Each is the contract of a function that does nothing.
ghost use Rattle.spf_replay_log.specs.Laws.{BytesAreOneLog, LogsDoNotBreak, LogsBreakOnce};
ghost use Rattle.spf_replay_log.specs.Laws.{LogsAreOrBreak};

/// Bytes are one log at most, and bytes that break are none: so `read_log` refuses exactly what is
/// no log. Bytes break at one offset at most: so the offset that it gives is the first. Bytes that
/// are no log break somewhere: so each of them has its offset.
pub fn bytes_have_one_reading()
    ensures one { BytesAreOneLog }
    ensures none { LogsDoNotBreak }
    ensures offset { LogsBreakOnce }
    ensures some { LogsAreOrBreak }
{}
