//! The table of routes.

ghost use Rattle.std.specs.Prelude.{◌≡◌, OnOk, []};
ghost use Rattle.http_request.specs.Table.{routes, with_route, route_of};

use http_request::Route;
use matchit::Router;
use std::alloc::{AllocError, Global};

/// The routes of the store.
#[derive(Drop)]
pub(crate) struct Routes {
    router: Router<Route>,
    ghost is_table: { router ≡ routes },
}

impl Routes {
    /// The table of routes.
    pub(crate) fn new(alloc: Global) -> Result<Routes, AllocError> {
        let mut router = Router::new(alloc);
        add_routes(&mut router)?;
        Ok(Routes { router })
    }

    /// The first route that the path matches.
    pub(crate) fn route_of(&self, path: &str) -> Option<Route>
        ensures { result ≡ route_of path.now }
    {
        match self.router.at(path) {
            Ok(found) => Some(*found.value),
            Err(_) => None,
        }
    }
}

// The table's routes, in their order.
fn add_routes(router: &mut Router<Route>) -> Result<(), AllocError>
    requires { router.old ≡ [] }
    ensures { OnOk result (router.new ≡ routes) }
{
    add_route(router, "/ping", Route::Ping)?;
    add_route(router, "/buckets/{bucket}/keys/{key}", Route::Key)?;
    add_route(router, "/hooks/{name}", Route::Hook)?;
    add_route(router, "/buckets/{bucket}/props", Route::Props)?;
    add_route(router, "/", Route::Root)?;
    add_route(
        router,
        "/types/default/buckets/{bucket}/keys/{key}",
        Route::TypedKey,
    )?;
    add_route(
        router,
        "/types/default/buckets/{bucket}/props",
        Route::TypedProps,
    )?;
    add_route(router, "/riak/{bucket}/{key}", Route::OldKey)
}

// The table's routes read well and differ, so want of memory is the only error.
fn add_route(router: &mut Router<Route>, text: &str, route: Route) -> Result<(), AllocError>
    ensures { OnOk result (router.new ≡ with_route text.now route router.old) }
{
    match router.insert(text, route) {
        Ok(()) => Ok(()),
        Err(_) => Err(AllocError),
    }
}
