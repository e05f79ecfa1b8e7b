//! Whole scripts against outputs worked out by hand, faults, limits, and each public call once; and scripts run by workers,
//! against what `run_script` prints.

mod digits;
mod door;
mod faults;
mod host;
mod lengths;
mod limits;
mod lines;
mod moments;
mod pool_faults;
mod pool_long;
mod pool_streams;
mod pools;
mod scripts;
mod streams;
mod traces;
mod worked;
