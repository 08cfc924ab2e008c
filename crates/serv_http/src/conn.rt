//! A connection: what is kept of the bytes that are not answered yet.

ghost use Rattle.std.specs.Prelude.{◌≡◌, ◌<◌, length, take};
ghost use Rattle.serv_http.specs.Counts.{IsCounted};
ghost use Rattle.serv_http.specs.Routes.{table};
ghost use Rattle.serv_http.specs.Stages.{StageFits};

use crate::lines::LineCount;
use crate::room::Room;
use crate::route::Route;
use crate::stage::Stage;
use matchit::Router;

/// A connection: what is kept of its bytes since the last whole request. A head and a body have
/// rooms of 8,192 and 2,048 bytes, which are taken once; a body that is passed over is not kept. The
/// lines of a head are counted as they come.
#[derive(Drop)]
pub struct Conn {
    pub(crate) router: Router<Route>,
    pub(crate) head: Room,
    pub(crate) filled: usize,
    pub(crate) lines: LineCount,
    pub(crate) body: Room,
    pub(crate) stage: Stage,
    ghost routes: { router ≡ table },
    ghost head_room: { length head ≡ 8192 },
    ghost filled_in: { filled < 8192 },
    ghost lines_in: { IsCounted (take filled head) lines },
    ghost body_room: { length body ≡ 2048 },
    ghost stage_in: { StageFits stage },
}
