//! The serial run of a Cilk program: its outcome, and its events in serial order.
//!
//! The serial run is the execution on one worker. A child runs as soon as it is called or spawned,
//! and its parent waits below it on the stack. The outcome is that of the serial elision, the
//! program without its parallel keywords (Frigo, Leiserson and Randall 1998). The trace, which is
//! the list of all events, is the input of the race and determinacy checks.
//!
//! The run executes the instructions of one frame after another, over one store of cells, one
//! hypermap of views and a stack of frames ([`running::Running::run_on`]). It doesn't recurse on the
//! depth of the run, and no event costs the scan of a list: each frame has its first cell, reducers
//! and static link.
//!
//! | Item | Purpose |
//! |---|---|
//! | [`run::run`] | the whole run: its outcome and trace, or a fault |
//! | [`serial_run::SerialRun`] | the same run, one event at a time |
//! | [`serial_run::SerialRun::run_on`] | further events, up to the next one that begins a frame |
//! | [`serial_run::Next`] | the next event, the end or a fault |
//! | [`serial_run::Target`] | what the next event begins: a function's frame, or one of a loop's turns |
//! | [`fault::RunFault`] | out of memory, or a fault and its position |
//!
//! ```text
//! let (outcome, trace) = run(alloc, &program, &input)?;
//!
//! let code = lower(alloc, &program)?;
//! let mut serial = SerialRun::new(alloc, &program, &code, &input)?;
//! loop {
//!     let target = serial.target();                // what the next event begins
//!     match serial.next()? {
//!         Next::Made(event) => show(event, target),
//!         Next::Ended => return serial.finish(),   // the outcome and the trace
//!         Next::Stops(fault) => return Err(fault), // into_trace() keeps the events before it
//!     }
//! }
//! ```
//!
//! The contracts say that the outcome is the elision's, and that the events so far are a prefix of
//! the serial run's unless memory is refused.
#![tactic(auto)]

pub mod answer;
pub mod callee;
pub mod fault;
pub mod frames;
pub mod outcome;
pub mod refusal;
pub mod run;
pub mod running;
pub mod serial_run;
pub mod state;
