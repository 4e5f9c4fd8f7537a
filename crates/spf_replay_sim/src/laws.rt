//! A law on schedules. It is the contract of a function that does nothing.
ghost use Rattle.spf_replay_sim.specs.Drawing.{SchedulesSeeVisibleSlots};

/// The schedule of a construct depends only on the slots of `main` that are visible at it.
pub fn schedules_see_visible_slots_alone()
    ensures { SchedulesSeeVisibleSlots }
{
    spf_ast_laws::each_form_sees_visible_slots_alone();
}
