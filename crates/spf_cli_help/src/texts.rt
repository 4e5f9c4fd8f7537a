//! The texts that are shown.

/// The help of the program.
pub(crate) const HELP: &str = "\
spf 0.1.0
Run programs for block-wise decoding, starting each block from a guess of its state.

Usage: spf [--host KIND]... COMMAND

Commands:
  run PROGRAM INPUT            Run a program on an input
  check PROGRAM                Say whether the rules accept a program
  explain PROGRAM              Show what each construct reads and writes
  print PROGRAM                Print a program in its canonical form
  unpack INPUT                 Unpack a PackBits file
  unhuff INPUT                 Decode a HUF1 file
  lex MACHINE INPUT            Split a text into tokens by a LEX1 machine
  show MACHINE                 Show a LEX1 machine as a text
  build TEXT                   Build the LEX1 machine of a text
  batch PROGRAM LIST           Run a program on each file of a list
  sim PROGRAM INPUT SEED       Simulate a run by blocks, and write its log
  replay PROGRAM INPUT LOG     Say whether a log is that of a run by blocks
  demo KIND SEED SIZE WORKERS  Run a decoder on a generated input

Options after the words of run, unpack, unhuff, lex and batch, in this order:
  --block B      Split the input into blocks of B bytes (not for run and batch; default: 1024)
  --workers N    Run the blocks with N workers (default: 4)
  --stats        Show how many guesses were right (not for batch)
  --cells        Show the cells of the arrays (only for run)
  --plain        Run without guesses (only for run)

Options that stand alone or before a command:
  --host KIND    Add a predictor: fixed:V, last, most, table or vote
  --help         Show this help; after the name of a command, the help of that command
  --version      Show the version

Exit status:
  0  The command succeeded
  1  The program trapped
  2  The command line was not understood
  3  The text of the program is not valid
  4  The program breaks a rule
  5  A file could not be read
  6  The output could not be written
  7  A file, a schedule or the arrays are too large, or a host is missing
  8  Memory ran out
  9  A file is not of its format: HUF1, LEX1, SPL1, the text of a machine, or a list of names
  10 The log is not that of a run by blocks

Example:
  spf run examples/doubling.spf examples/empty --stats
";

/// The version.
pub(crate) const VERSION: &str = "spf 0.1.0\n";

/// The help of `run`.
pub(crate) const RUN: &str = "\
Usage: spf run PROGRAM INPUT [--workers N] [--stats] [--cells] [--plain]

Run the program in the file PROGRAM on the file INPUT.
The output goes to standard output. The options stand in this order.

Options:
  --workers N  Run the blocks with N workers, 1 to 64 (default: 4)
  --stats      Show how many guesses were right
  --cells      Show the cells of the arrays
  --plain      Run without guesses, even if the program breaks a rule

Example:
  spf run examples/quotes.spf examples/quotes.txt --stats
";

/// The help of `check`.
pub(crate) const CHECK: &str = "\
Usage: spf check PROGRAM

Say whether the rules accept the program in the file PROGRAM.
If they do not, the first rule that it breaks is shown, and the exit status is 4.

Example:
  spf check examples/quotes.spf
";

/// The help of `explain`.
pub(crate) const EXPLAIN: &str = "\
Usage: spf explain PROGRAM

Show what each construct of the program in the file PROGRAM reads and writes, and whether the rules accept it.

Example:
  spf explain examples/quotes.spf
";

/// The help of `print`.
pub(crate) const PRINT: &str = "\
Usage: spf print PROGRAM

Print the program in the file PROGRAM in its canonical form.

Example:
  spf print examples/doubling.spf
";

/// The help of `unpack`.
pub(crate) const UNPACK: &str = "\
Usage: spf unpack INPUT [--block B] [--workers N] [--stats]

Unpack the PackBits file INPUT.
The output goes to standard output. The options stand in this order.

Options:
  --block B    Split the input into blocks of B bytes, 1 to 65536 (default: 1024)
  --workers N  Run the blocks with N workers, 1 to 64 (default: 4)
  --stats      Show how many guesses were right

Example:
  spf unpack examples/tn1023.pack --block 4 --stats > unpacked
";

/// The help of `unhuff`.
pub(crate) const UNHUFF: &str = "\
Usage: spf unhuff INPUT [--block B] [--workers N] [--stats]

Decode the HUF1 file INPUT.
The output goes to standard output. The options stand in this order.

Options:
  --block B    Split the input into blocks of B bytes, 1 to 65536 (default: 1024)
  --workers N  Run the blocks with N workers, 1 to 64 (default: 4)
  --stats      Show how many guesses were right

Example:
  spf unhuff examples/notes.huf --workers 8 > notes
";

/// The help of `lex`.
pub(crate) const LEX: &str = "\
Usage: spf lex MACHINE INPUT [--block B] [--workers N] [--stats]

Split the text in the file INPUT into tokens by the LEX1 machine in the file MACHINE.
The output goes to standard output. The options stand in this order.

Options:
  --block B    Split the input into blocks of B bytes, 1 to 65536 (default: 1024)
  --workers N  Run the blocks with N workers, 1 to 64 (default: 4)
  --stats      Show how many guesses were right

Example:
  spf lex examples/tokens.lex examples/count.c --stats > tokens
";

/// The help of `show`.
pub(crate) const SHOW: &str = "\
Usage: spf show MACHINE

Show the LEX1 machine in the file MACHINE as a text, which goes to standard output.
The command build gives the machine back.

Lines:
  states S classes C   The numbers of states and classes
  class N BYTE...      The bytes of a class in hexadecimal; all other bytes are of class 0
  state N NEXT/MARK... For each class the next state, and the kind of token that begins, or 0

Example:
  spf show examples/tokens.lex > tokens.txt
";

/// The help of `build`.
pub(crate) const BUILD: &str = "\
Usage: spf build TEXT

Build the LEX1 machine whose text is in the file TEXT; the machine goes to standard output.
The text has to be just as the command show writes it.

Example:
  spf build tokens.txt > tokens.lex
";

/// The help of `batch`.
pub(crate) const BATCH: &str = "\
Usage: spf batch PROGRAM LIST [--workers N]

Run the program in the file PROGRAM on one file after another.
LIST is a file with one name on each line, at most 1,000. Hosts learn from file to file.
The answers go to standard output. Each is a line, the output of the program, and a line end:
  NAME done length L              The program ended, after L bytes
  NAME trap KIND line N length L  The program trapped, after L bytes
A file that cannot be read or is too large ends the batch.

Options:
  --workers N  Run the blocks with N workers, 1 to 64 (default: 4)

Example:
  spf --host vote batch examples/hosted.spf names.txt > answers
";

/// The help of `sim`.
pub(crate) const SIM: &str = "\
Usage: spf sim PROGRAM INPUT SEED

Simulate a run by blocks of the program in the file PROGRAM on the file INPUT, and write its log.
The schedule is drawn from the number SEED. The log goes to standard output, in the format SPL1.
The output of the program is not written. How many guesses were right is shown on standard error.

Arguments:
  SEED  A number below 2^64; the schedule that it gives may have 1000000 steps at most

Example:
  spf sim examples/quotes.spf examples/quotes.txt 7 > quotes.log
";

/// The help of `replay`.
pub(crate) const REPLAY: &str = "\
Usage: spf replay PROGRAM INPUT LOG

Say whether the file LOG is the log of a run by blocks of the program in the file PROGRAM on the file INPUT.
The command sim writes such logs. The predictors have to be the same.
The answer goes to standard output:
  yes           It is
  no section N  It is not, and the exit status is 10
Section N, counted from 0, is the first that is not a run of its construct, is missing, or is one too many.

Example:
  spf replay examples/quotes.spf examples/quotes.txt quotes.log
";

/// The help of `demo`.
pub(crate) const DEMO: &str = "\
Usage: spf demo KIND SEED SIZE WORKERS

Run a decoder on an input that is generated from a number, in blocks of 1024 bytes.
One line with the sum of the output's bytes and the number of right guesses goes to standard output.

Arguments:
  KIND     unpack, unhuff or lex
  SEED     A number below 2^64, from which the input is generated
  SIZE     The size of the input, 1 to 1000000
  WORKERS  The number of workers that run the blocks, 1 to 64

Example:
  spf demo lex 7 1000000 8
";
