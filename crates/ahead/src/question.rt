// A cell, and what follows from it and the settings before any strip is looked at.
ghost use Rattle.std.specs.Prelude.{◌≡◌, ◌≤◌, ◌<◌};
ghost use Rattle.limits.specs.Limits.{ram_length};
ghost use Rattle.raster.specs.Raster.{lines_after};
ghost use Rattle.ahead.specs.Question.{codes_at_most, user_shown, Posed};

use raster::ScanLine;
use registers::Settings;

// What is looked for in each strip.
#[derive(Clone, Copy)]
pub struct Sought {
    pub cell: u16,
    pub settings: Settings,
    // the codes that a line reads at the most
    pub codes: u16,
    // a strip that begins, shown whole, shows the cell's slice
    pub whole: bool,
    ghost posed: { Posed cell settings codes whole },
}

// The codes that a line reads at the most.
fn most_codes(settings: Settings) -> u16
    ensures { result ≡ codes_at_most settings }
{
    if settings.osd {
        return raster::characters(settings.ld, settings.dd);
    }
    0
}

// Does one of the k lines after a line of a strip show the cell's slice, of a user character?
pub(crate) fn user_shown(line: ScanLine, k: u16, height: u8, zoom: bool, cell: u16) -> bool
    requires { (1 ≤ k) × (k ≤ lines_after line height zoom) }
    ensures { result ≡ user_shown cell line k height zoom }
{
    glyph::of_user(cell) && line.shows(k, height, zoom, glyph::user_slice(cell))
}

impl Sought {
    #[tactic(auto, using(raster::proofs::Laws::all_after))]
    pub(crate) fn new(settings: Settings, cell: u16) -> Self
        requires { cell < ram_length }
        ensures { (result.cell ≡ cell) × (result.settings ≡ settings) }
    {
        let height = walk::height(settings.ch);
        Sought {
            cell,
            settings,
            codes: most_codes(settings),
            whole: user_shown(
                ScanLine::before_first(),
                u16::from(height),
                height,
                false,
                cell,
            ),
        }
    }
}
