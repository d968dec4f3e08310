// The gauge run and the case run (01, "Moves of a run"), each under a preference (02, R-12): fresh starts that promise demand 3, and run calls with a
// budget on a paused value, any value and any budget; and batches, many ladders in one call. A run is generic over its side, `Gauge` or `Case`, which no
// value of the other side fits: paused.rt has the paused run, its fresh start, its call and its checks, batches.rt its batch, and sided.rt the core's calls
// on a side. Below these are engine.rt, the one core, on plain numbers and arrays and by number, ordered.rt, its call under an order, and listing.rt, its
// batch. No function that another crate can call has a `requires`, and only a batch is lent memory, the buffer for its ladders.
#![tactic(auto)]

mod batches;
mod engine;
mod listing;
mod ordered;
mod paused;
mod sided;
mod work;

pub use batches::{Batch, CaseBatch, Close, GaugeBatch};
pub use paused::{
    CasePicks, CaseRun, CaseStep, GaugePicks, GaugeRun, GaugeStep, Ladder, Outcome, Picks, Run,
    Step,
};

// The phase of a run (01: "Down, Handed, Back from gauge g, or Ended"), with the number that it is back from as `N` has it.
#[derive(Clone, Copy)]
pub enum Phase<N> {
    Down,
    Handed,
    Back(N),
    Ended,
}
