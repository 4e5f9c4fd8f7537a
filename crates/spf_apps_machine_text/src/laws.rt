//! Laws about machines' texts. Each is the contract of a function that does nothing.
ghost use Rattle.spf_apps_machine_text.specs.Laws.{MachinesHaveOneText};

use spf_apps_formats::laws::files_have_one_verdict;

/// Each machine has exactly one text, and each text belongs to exactly one machine or to none.
pub fn machines_have_one_text()
    ensures { MachinesHaveOneText }
{
    files_have_one_verdict();
}
