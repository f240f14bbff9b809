// The box seen from one source, as the walks over its rows take it.
ghost use Rattle.std.specs.Prelude.{◌≡◌, ◌≤◌, length};
ghost use Rattle.rules.specs.World.{sheet_of, count_of};
ghost use Rattle.checks.specs.Facing.{JobFrom};
ghost use Rattle.checks.specs.Passed.{Rows, Probes};
ghost use Rattle.checks.specs.Viewed.{viewed};

use crate::refusals::BoxView;
use pairs::walks::{Job, Scope};
use sheets::layout::Sheet;
use sheets::lists::Lists;
use sheets::parts::Parts;
use stamps::{PerSource, Source};

impl<'s> BoxView<'s> {
    // The rows of a source.
    pub fn sheet(&self, source: Source) -> Sheet<'s>
        requires { Rows self.now.session (length self.now.a.now) (length self.now.b.now) }
        ensures words { result.words.now ≡ sheet_of (viewed self.now) source }
        ensures rows { result.rows ≡ count_of (viewed self.now) source }
        ensures few { result.rows ≤ 4096 }
    {
        let sheets = PerSource {
            a: self.a,
            b: self.b,
        };
        Sheet {
            words: sheets.of(source),
            rows: self.session.feeds.of(source).rows as usize,
        }
    }

    // What is looked for, with a source's rows first.
    pub fn job(&self, source: Source, scope: Scope) -> Job<'_>
        requires rows { Rows self.now.session (length self.now.a.now) (length self.now.b.now) }
        requires probes { Probes self.now.session (length self.now.probe.now) }
        ensures { JobFrom source scope (viewed self.now) result }
    {
        Job {
            source,
            own: self.sheet(source),
            facing: self.sheet(stamps::other_source(source)),
            lists: Lists {
                probe: self.probe,
                counts: &self.session.counts,
                parts: Parts {
                    count: self.session.parts,
                },
            },
            scope,
        }
    }
}
