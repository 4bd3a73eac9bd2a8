// Document 01, "Settings and cell" (cell.rs): what can be read off a cell, and the largest zoom of a base.
#![tactic(auto)]

ghost use Rattle.std.specs.Prelude.{◌≡◌};
ghost use Rattle.cell.specs.Refusals.{params_call, layout_call, max_zoom_call, cell_verdict, zoom_call, shutter_call, pixel_call};

use cell::{
    LayoutAnswer, MicroLayout, MicroParams, ParamsAnswer, PixelAnswer, ShutterAnswer, ZoomAnswer,
};
use cell_judging::{judge, power};
use cell_layout::fields;
use refusal::Verdict;

// A call that only reads draws nothing, so no random state can turn it back.
const ANY_STATE: u64 = 1;

// t is 1 to 4,096, and c is 2 to 256.
pub fn checked(t: usize, c: u32) -> ParamsAnswer
    ensures { result ≡ params_call (record { t = t; c = c }) }
{
    let params = MicroParams { t, c };
    let verdict = judge::settings(params);
    ParamsAnswer { verdict, params }
}

// Where the fields of a cell stand.
pub fn layout(params: MicroParams) -> LayoutAnswer
    ensures { result ≡ layout_call params }
{
    let verdict = judge::settings(params);
    if !verdict.accepted() {
        return LayoutAnswer {
            verdict,
            layout: MicroLayout {
                params,
                pixels: 0,
                zoom_at: 0,
                shutter_at: 0,
                depth: 0,
                zoom_in_ceiling: 0,
            },
        };
    }
    LayoutAnswer {
        verdict,
        layout: fields::derived(params),
    }
}

// The largest zoom of a base.
pub fn max_zoom(c: u32) -> ZoomAnswer
    ensures { result ≡ max_zoom_call c }
{
    let verdict = judge::base(c);
    if !verdict.accepted() {
        return ZoomAnswer { verdict, zoom: 0 };
    }
    ZoomAnswer {
        verdict,
        zoom: power::max_zoom(c),
    }
}

// Whether a cell is sound: its zoom at most max_zoom, its shutter below c^Z.
pub fn judge(cell: &[u8], params: MicroParams) -> Verdict
    ensures { result ≡ cell_verdict params cell.now }
{
    let held = judge::held(cell, params, ANY_STATE);
    held.verdict
}

// A cell's zoom.
pub fn zoom(cell: &[u8], params: MicroParams) -> ZoomAnswer
    ensures { result ≡ zoom_call params cell.now }
{
    let held = judge::held(cell, params, ANY_STATE);
    let verdict = held.verdict;
    if !verdict.accepted() {
        return ZoomAnswer { verdict, zoom: 0 };
    }
    ZoomAnswer {
        verdict,
        zoom: fields::zoom(cell, params.t),
    }
}

// A cell's shutter.
pub fn shutter(cell: &[u8], params: MicroParams) -> ShutterAnswer
    ensures { result ≡ shutter_call params cell.now }
{
    let held = judge::held(cell, params, ANY_STATE);
    let verdict = held.verdict;
    if !verdict.accepted() {
        return ShutterAnswer {
            verdict,
            shutter: 0,
        };
    }
    ShutterAnswer {
        verdict,
        shutter: held.shutter,
    }
}

// The items that a cell counts for sub-window n: the pixel times c^Z. The whole product is made f64, so it is exact.
pub fn scaled_pixel(cell: &[u8], params: MicroParams, n: u64) -> PixelAnswer
    ensures { result ≡ pixel_call params n cell.now }
{
    let held = judge::held(cell, params, ANY_STATE);
    let verdict = held.verdict;
    if !verdict.accepted() {
        return PixelAnswer {
            verdict,
            items: 0.0,
        };
    }
    let slot = fields::slot(params.t, n);
    PixelAnswer {
        verdict,
        items: (held.unit * u64::from(cell[slot])) as f64,
    }
}
