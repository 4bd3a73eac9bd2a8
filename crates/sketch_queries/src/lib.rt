// Document 01, "Sketch and grid" and "Audit and block store": the calls that look at a sketch's cells and change nothing.
#![tactic(auto)]

mod highest;

ghost use Rattle.std.specs.Prelude.{◌≡◌};
ghost use Rattle.sketch.specs.Refusals.{bucket_verdict, bucket_call, highest_call, audit_call};

use refusal::Verdict;
use sketch::{AuditAnswer, Finding, HighestAnswer, MicroCm};
use sketch_judging::{grid, judge};

// 1 to 6, then 7 for a row or column out of range. No cell is judged.
pub fn bucket_check(sketch: MicroCm, row: usize, col: usize, grid: &[u8]) -> Verdict
    ensures { result ≡ bucket_verdict sketch row col grid.now }
{
    let verdict = judge::sketch(sketch, grid);
    if !verdict.accepted() {
        return verdict;
    }
    if row >= sketch.rows || col >= sketch.cols {
        return Verdict::Refused(7);
    }
    verdict
}

// That cell's own bytes of the lent grid; none if refused, and `bucket_check` says by which number.
pub fn bucket_slice(sketch: MicroCm, row: usize, col: usize, grid: &[u8]) -> &[u8]
    ensures { result.now ≡ bucket_call sketch row col grid.now }
{
    let verdict = bucket_check(sketch, row, col, grid);
    if !verdict.accepted() {
        return &grid[0..0];
    }
    let start = grid::start_of(sketch, grid.len(), grid::cell_index(sketch, row, col));
    let end = start + cell_layout::fields::depth(sketch.params.t);
    &grid[start..end]
}

// The present highest zoom of any cell. Every cell is judged first: an unsound one's zoom says nothing.
pub fn max_zoom(sketch: MicroCm, grid: &[u8]) -> HighestAnswer
    ensures { result ≡ highest_call sketch grid.now }
{
    let verdict = highest::judge(sketch, grid);
    if !verdict.accepted() {
        return HighestAnswer { verdict, zoom: 0 };
    }
    HighestAnswer {
        verdict,
        zoom: highest::zoom(sketch, grid),
    }
}

// Whether every cell is sound, and if not, the first that is unsound in grid order.
pub fn audit(sketch: MicroCm, grid: &[u8]) -> AuditAnswer
    ensures { result ≡ audit_call sketch grid.now }
{
    let verdict = judge::sketch(sketch, grid);
    if !verdict.accepted() {
        return AuditAnswer {
            verdict,
            audit: Finding::Sound,
        };
    }
    let cells = judge::all_cells(sketch, grid);
    if cells.accepted() {
        return AuditAnswer {
            verdict,
            audit: Finding::Sound,
        };
    }
    AuditAnswer {
        verdict,
        audit: Finding::Unsound(cells.index()),
    }
}
