// What a service page starts from: a sketch, and beside it what is kept of the watched codes (document 02, T-01). A fresh
// start and a load give it whole, so neither leaves codes of before. No call that counts takes it: those take the sketch.
#![tactic(auto)]

ghost use Rattle.std.specs.Prelude.{◌≡◌};
ghost use Rattle.service.specs.Service.{served, service_outcome, start_call, load_call};

use cell::MicroParams;
use clock::SubWindowClock;
use codes::Watch;
use refusal::Verdict;
use sketch::MicroCm;

#[derive(Clone, Copy)]
pub struct Service {
    pub sketch: MicroCm,
    pub watch: Watch,
}

// A refused start or load gives in place of a sketch one that every call refuses.
#[derive(Clone, Copy)]
pub struct ServiceAnswer {
    pub verdict: Verdict,
    pub service: Service,
}

fn without_codes(verdict: Verdict, sketch: MicroCm) -> ServiceAnswer
    ensures { result ≡ served verdict sketch }
{
    ServiceAnswer {
        verdict,
        service: Service {
            sketch,
            watch: Watch {
                count: 0,
                rows: 0,
                reached: 0,
            },
        },
    }
}

impl Service {
    // A fresh sketch, every byte of the lent grid 0, and no codes.
    pub fn with_dimensions(
        rows: usize,
        cols: usize,
        params: MicroParams,
        clock: SubWindowClock,
        seed: u64,
        grid: &mut [u8],
    ) -> ServiceAnswer
        ensures { service_outcome result grid.new ≡ start_call rows cols params clock seed grid.old }
    {
        let answer = sketch_start::with_dimensions(rows, cols, params, clock, seed, grid);
        let verdict = answer.verdict;
        let sketch = answer.sketch;
        without_codes(verdict, sketch)
    }
}

// The sketch of a store, its grid in the lent one, and no codes.
pub fn load(grid: &mut [u8], store: &[u8]) -> ServiceAnswer
    ensures { service_outcome result grid.new ≡ load_call grid.old store.now }
{
    let answer = store_calls::load(grid, store);
    let verdict = answer.verdict;
    let sketch = answer.sketch;
    without_codes(verdict, sketch)
}
