// What each call leaves in the words that a caller keeps. Each function returns document 01's number, 0 if the call was accepted;
// what a call changes a refused one leaves, what it tells is written either way.
#![tactic(auto)]

ghost use Rattle.std.specs.Prelude.{◌≡◌, [], ◌∷◌};
ghost use Rattle.refusal.specs.Refusals.{number_of, index_of, when_accepted};
ghost use Rattle.edge_values.specs.Edge.{watch_words, words_after, change_of, sketch_after, codes_after, figures_of, items_of, found_of, shape_words};

use cell::CellAnswer;
use codes::{AskAnswer, WatchAnswer};
use refusal::Verdict;
use rounding::{DivisionAnswer, DrawAnswer};
use service::ServiceAnswer;
use sketch::{AuditAnswer, Finding, ReadingAnswer, SketchAnswer};
use store_shape::ShapeAnswer;

// What a call left, in its place. A refused call leaves the sketch as it is.
pub fn changed(sketch: &mut [u64; 9], change: &mut [u64; 3], answer: SketchAnswer) -> u64
    ensures { (result ≡ number_of answer.verdict) × (sketch.new ≡ words_after sketch.old answer)
        × (change.new ≡ change_of answer.verdict answer.draws answer.lost) }
{
    let verdict = answer.verdict;
    let refused_by = edge_values::number(verdict);
    *change = [edge_values::index(verdict), answer.draws, answer.lost];
    let accepted = verdict.accepted();
    if !accepted {
        return refused_by;
    }
    let core = answer.sketch;
    let clock = core.clock;
    let rounding = core.rounding;
    let state = rounding.state;
    sketch[7] = edge_values::reading_in(clock);
    // Most items draw nothing. A state that is not stored anew is not waited for by the next call.
    if sketch[8] == state {
        return refused_by;
    }
    sketch[8] = state;
    refused_by
}

// A start that was refused leaves sketch and codes as they are.
pub fn started(sketch: &mut [u64; 9], watch: &mut [u64; 3], answer: ServiceAnswer) -> u64
    ensures { (result ≡ number_of answer.verdict) × (sketch.new ≡ sketch_after sketch.old answer)
        × (watch.new ≡ codes_after watch.old answer) }
{
    let verdict = answer.verdict;
    if !verdict.accepted() {
        return edge_values::number(verdict);
    }
    let service = answer.service;
    edge_values::put_sketch(sketch, service.sketch);
    edge_values::put_watch(watch, service.watch);
    edge_values::number(verdict)
}

// The verdict alone.
pub fn indexed(at: &mut u64, verdict: Verdict) -> u64
    ensures { (result ≡ number_of verdict) × (at.new ≡ index_of verdict) }
{
    *at = edge_values::index(verdict);
    edge_values::number(verdict)
}

// The same as a start with the index, for a load.
pub fn loaded(
    sketch: &mut [u64; 9],
    watch: &mut [u64; 3],
    at: &mut u64,
    answer: ServiceAnswer,
) -> u64
    ensures { (result ≡ number_of answer.verdict) × (sketch.new ≡ sketch_after sketch.old answer)
        × (watch.new ≡ codes_after watch.old answer) × (at.new ≡ index_of answer.verdict) }
{
    let verdict = answer.verdict;
    *at = edge_values::index(verdict);
    started(sketch, watch, answer)
}

pub fn read(figures: &mut [f64; 4], items: &mut [u64; 3], answer: ReadingAnswer) -> u64
    ensures { (result ≡ number_of answer.verdict) × (figures.new ≡ figures_of answer) × (items.new ≡ items_of answer) }
{
    let verdict = answer.verdict;
    let figure = answer.reading;
    *figures = [figure.over, figure.under, figure.linear, figure.fraction];
    *items = [edge_values::index(verdict), answer.over, answer.under];
    edge_values::number(verdict)
}

// A value behind the index.
pub fn told(words: &mut [u64; 2], verdict: Verdict, value: u64) -> u64
    ensures { (result ≡ number_of verdict) × (words.new ≡ index_of verdict ∷ value ∷ []) }
{
    *words = [edge_values::index(verdict), value];
    edge_values::number(verdict)
}

pub fn found(words: &mut [u64; 2], answer: AuditAnswer) -> u64
    ensures { (result ≡ number_of answer.verdict) × (words.new ≡ found_of answer.audit) }
{
    let verdict = answer.verdict;
    let audit = answer.audit;
    let judged = edge_values::number(verdict);
    match audit {
        Finding::Sound => {
            *words = [0, 0];
            judged
        }
        Finding::Unsound(at) => {
            *words = [at as u64, 1];
            judged
        }
    }
}

pub fn shaped(words: &mut [u64; 5], answer: ShapeAnswer) -> u64
    ensures { (result ≡ number_of answer.verdict) × (words.new ≡ shape_words answer) }
{
    let verdict = answer.verdict;
    let rows = answer.rows as u64;
    let cols = answer.cols as u64;
    *words = [
        rows,
        cols,
        answer.t as u64,
        answer.c as u64,
        answer.grid_bytes as u64,
    ];
    edge_values::number(verdict)
}

pub fn codes_set(watch: &mut [u64; 3], answer: WatchAnswer) -> u64
    ensures { (result ≡ number_of answer.verdict)
        × (watch.new ≡ when_accepted answer.verdict (watch_words answer.watch) watch.old) }
{
    let verdict = answer.verdict;
    if !verdict.accepted() {
        return edge_values::number(verdict);
    }
    edge_values::put_watch(watch, answer.watch);
    edge_values::number(verdict)
}

pub fn codes_asked(watch: &mut [u64; 3], words: &mut [u64; 2], answer: AskAnswer) -> u64
    ensures { (result ≡ number_of answer.verdict)
        × (watch.new ≡ when_accepted answer.verdict (watch_words answer.watch) watch.old)
        × (words.new ≡ index_of answer.verdict ∷ answer.listed ∷ []) }
{
    let verdict = answer.verdict;
    *words = [edge_values::index(verdict), answer.listed as u64];
    if !verdict.accepted() {
        return edge_values::number(verdict);
    }
    edge_values::put_watch(watch, answer.watch);
    edge_values::number(verdict)
}

pub fn drawn(state: &mut u64, change: &mut [u64; 3], answer: CellAnswer) -> u64
    ensures { (result ≡ number_of answer.verdict) × (state.new ≡ answer.rounding.state)
        × (change.new ≡ change_of answer.verdict answer.draws answer.lost) }
{
    let verdict = answer.verdict;
    let rounding = answer.rounding;
    *state = rounding.state;
    *change = [
        edge_values::index(verdict),
        answer.draws as u64,
        answer.lost as u64,
    ];
    edge_values::number(verdict)
}

pub fn drew(state: &mut u64, value: &mut u64, answer: DrawAnswer) -> u64
    ensures { (result ≡ number_of answer.verdict) × (state.new ≡ answer.rounding.state) × (value.new ≡ answer.value) }
{
    let verdict = answer.verdict;
    let rounding = answer.rounding;
    *state = rounding.state;
    *value = answer.value;
    edge_values::number(verdict)
}

pub fn divided(
    state: &mut u64,
    quotient: &mut u64,
    change: &mut [u64; 3],
    answer: DivisionAnswer,
) -> u64
    ensures { (result ≡ number_of answer.verdict) × (state.new ≡ answer.rounding.state)
        × (quotient.new ≡ answer.value) × (change.new ≡ change_of answer.verdict answer.draws 0) }
{
    let verdict = answer.verdict;
    let rounding = answer.rounding;
    *state = rounding.state;
    *quotient = answer.value;
    *change = [edge_values::index(verdict), answer.draws as u64, 0];
    edge_values::number(verdict)
}
