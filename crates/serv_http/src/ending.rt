//! Whether a connection has ended.

ghost use Rattle.std.specs.Prelude.{◌≡◌};
ghost use Rattle.serv_http.specs.Stages.{is_ended};

use crate::stage::Stage;

/// Whether the connection has ended.
pub(crate) fn has_ended(stage: &Stage) -> bool
    ensures { result ≡ is_ended stage.now }
{
    matches!(stage, Stage::Over)
}
