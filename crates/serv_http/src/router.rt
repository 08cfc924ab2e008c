//! The router of all routes.

ghost use Rattle.std.specs.Prelude.{◌≡◌, [], IfOk, OnOk, IsUtf8};
ghost use Rattle.serv_http.specs.Routes.{table, route_of};

use crate::route::Route;
use matchit::{InsertError, Router};
use std::alloc::Global;
use svc_base::OutOfMemory;

/// All routes are entered; the routes do not conflict, so that memory alone can be wanting.
fn routes_in(router: &mut Router<Route>) -> Result<(), InsertError>
    requires { router.old ≡ [] }
    ensures { OnOk result (router.new ≡ table) }
{
    router.insert("/v1/commands", Route::Commands)?;
    router.insert("/v1/loans/{loan}/books", Route::Books)?;
    router.insert("/v1/loans/{loan}/books/{day}", Route::BooksAt)?;
    router.insert("/v1/loans/{loan}/payoff/{day}", Route::Payoff)?;
    router.insert("/v1/loans/{loan}/escrow", Route::Escrow)?;
    router.insert("/v1/months/{period}/report", Route::Report)?;
    router.insert("/v1/months/{period}/trial", Route::Trial)?;
    router.insert("/v1/custodial", Route::Custodial)?;
    router.insert("/v1/rows/{number}", Route::Rows)?;
    router.insert("/v1/loans/{loan}", Route::Loan)?;
    router.insert("/v1/loans/{loan}/history", Route::History)?;
    router.insert("/v1/loans/{loan}/quote/{day}", Route::Quote)?;
    router.insert("/v1/loans/{loan}/arrears", Route::Arrears)?;
    router.insert("/v1/aging", Route::Aging)?;
    router.insert("/v1/status", Route::Status)?;
    router.insert("/v1/commands/{number}", Route::Command)?;
    router.insert("/v1/keys/{key}", Route::Key)?;
    Ok(())
}

/// The router of all routes.
pub(crate) fn routes(alloc: Global) -> Result<Router<Route>, OutOfMemory>
    ensures { IfOk result (λ rows. rows ≡ table) }
{
    let mut router = Router::new(alloc);
    match routes_in(&mut router) {
        Ok(()) => Ok(router),
        Err(_) => Err(OutOfMemory),
    }
}

/// The route that a request target matches.
pub(crate) fn find(router: &Router<Route>, target: &[u8]) -> Option<Route>
    requires table { router.now ≡ table }
    requires text { IsUtf8 target.now }
    ensures { result ≡ route_of target.now }
{
    if target.contains(&b'?') {
        return None;
    }
    let Ok(path) = str::from_utf8(target) else {
        return None;
    };
    match router.at(path) {
        Ok(found) => Some(*found.value),
        Err(_) => None,
    }
}
