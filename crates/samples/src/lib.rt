// Reproducible test tables (02, R-13): Marsaglia's xorshift64, and the table that a shape, a start and a density give. Any numbers are taken;
// 10 and 28 are refused. No public function has a `requires`, and none is lent memory.
#![tactic(auto)]

ghost use Rattle.std.specs.Prelude.{◌≡◌, ◌≤◌};
ghost use Rattle.table.specs.Tables.{made, padded};
ghost use Rattle.samples.specs.Xorshift.{step as stepped, StepClaims};
ghost use Rattle.samples.specs.Samples.{sample_rows, sample_table, SampleClaims};
ghost use Rattle.samples.specs.private.Rows.{IsSampled};

use refusals::Refusal;
use table;
use table::Table;

// "a density from 0 to 256" (02): of the 256 low bytes, how many make a pair.
const MOST_DENSITY: u64 = 256;

// A row that was made, and the state after it.
#[derive(Clone, Copy)]
struct Sampled {
    pub row: u64,
    pub state: u64,
}

// One step of the generator, which can be reversed and never leads to zero.
pub fn step(x: u64) -> u64
    ensures value { result ≡ stepped x }
    ensures claims { StepClaims }
{
    let a = x ^ (x << 13);
    let b = a ^ (a >> 7);
    b ^ (b << 17)
}

// The table of a shape, a start and a density; 10, then 28 are refused. It is legal, and pair by pair what 02 says.
pub fn sample_table(gauges: u64, cases: u64, start: u64, density: u64) -> Result<Table, Refusal>
    ensures result_value { made result ≡ sample_table gauges cases start density }
    ensures claims { SampleClaims gauges cases start density }
{
    if !table::in_range(gauges, Table::MOST_GAUGES) {
        return Err(Refusal::TableShape);
    }
    if !table::in_range(cases, Table::MOST_CASES) {
        return Err(Refusal::TableShape);
    }
    if start == 0 {
        return Err(Refusal::SampleInput);
    }
    if MOST_DENSITY < density {
        return Err(Refusal::SampleInput);
    }
    let rows = sample_rows(gauges, cases, start, density);
    Ok(Table {
        gauges,
        cases,
        rows,
    })
}

// The rows, one gauge after the other.
fn sample_rows(gauges: u64, cases: u64, start: u64, density: u64) -> [u64; 64]
    requires { (gauges ≤ 64) × (cases ≤ 64) }
    ensures { result ≡ padded (sample_rows density cases gauges start) }
{
    let mut rows = [0u64; 64];
    let mut state = start;
    for i in 0..gauges as usize {
        let one = sample_row(state, cases, density);
        rows[i] = one.row;
        state = one.state;
    }
    rows
}

// A row, one case after the other, and the state after its last case.
fn sample_row(start: u64, cases: u64, density: u64) -> Sampled
    requires { cases ≤ 64 }
    ensures { IsSampled density cases start result }
{
    let mut row: u64 = 0;
    let mut state = start;
    for c in 0..cases {
        let next = step(state);
        if next % 256 < density {
            row += 1 << c;
        }
        state = next;
    }
    Sampled { row, state }
}
