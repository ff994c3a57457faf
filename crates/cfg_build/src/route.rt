ghost use Rattle.std.specs.Prelude.{◌≡◌};
ghost use Rattle.c_meaning.specs.Graph.{route_to, route_from, loop_route};
ghost use Rattle.cfg_build.specs.Growing.{route_of};

/// From which node to which one a statement is lowered, and where `break` and `continue` go.
#[derive(Clone, Copy)]
pub(crate) struct Route {
    pub from: u16,
    pub to: u16,
    pub on_break: u16,
    pub on_continue: u16,
}

impl Route {
    /// The same route to another node.
    pub(crate) fn ending_at(self, node: u16) -> Route
        ensures { route_of result ≡ route_to node (route_of self) }
    {
        Route { to: node, ..self }
    }

    /// The same route from another node.
    pub(crate) fn starting_at(self, node: u16) -> Route
        ensures { route_of result ≡ route_from node (route_of self) }
    {
        Route { from: node, ..self }
    }

    /// The route of a part of a loop: it ends where `continue` goes, and `break` leaves the loop.
    pub(crate) fn in_loop(from: u16, end: u16, to: u16) -> Route
        ensures { route_of result ≡ loop_route from end to }
    {
        Route {
            from,
            to: end,
            on_break: to,
            on_continue: end,
        }
    }
}
