//! Tests of the runtime, on one thread and on several: shared cells, pools, attempts, crews and
//! whole runs by blocks. They are a crate of their own, since a crate with tests is proved twice.
#![tactic(auto)]

#[cfg(test)]
mod cells;
#[cfg(test)]
mod counting;
#[cfg(test)]
mod gated;
#[cfg(test)]
mod hosts;
#[cfg(test)]
mod jobs;
#[cfg(test)]
mod outcomes;
#[cfg(test)]
mod own_threads;
#[cfg(test)]
mod pool;
#[cfg(test)]
mod programs;
#[cfg(test)]
mod schedules;
#[cfg(test)]
mod starting;
#[cfg(test)]
mod threads;
#[cfg(test)]
mod turns;
#[cfg(test)]
mod workers;
