ghost use Rattle.std.specs.Prelude.{◌≡◌, ◌<◌, map, IfOk, None, Some};
ghost use Rattle.std.specs.Option.{option_map, option_map_or};
ghost use Rattle.c_meaning.specs.Graph.{next_node, with_edge, with_silent, hoisted_expr, hoisted_exprs, condition, last_edge, call_edge, sequence, sequence_or_silent, part_or_silent, if_head, if_flow, while_flow, do_flow, for_first, for_head, for_flow, lowering_of, body_start};
ghost use Rattle.cfg_build.specs.Growing.{Draws, Hoists, route_of, lowering_at, do_test, then_flow, for_body};

use crate::builder::Builder;
use crate::fault::BuildFault;
use crate::route::Route;
use gob_tree::{Action, Boxed, Expr, Place, Placed, Stmt, Target, Width};

/// Where the innermost statement starts that starts where this one does: a block, a `do` and a
/// `for` with a first part start where their first inner statement does.
#[cycle(start)]
pub(crate) fn start_of(placed: &Placed) -> Place
    ensures { result ≡ (lowering_of placed.now).start }
{
    match &placed.stmt {
        Stmt::Block(all) => first_start(all.as_slice(), placed.place),
        Stmt::DoWhile(body, _) => start_of(body.get()),
        Stmt::For(first, _, _, _) => first_start(first.as_slice(), placed.place),
        _ => placed.place,
    }
}

/// Where the first of these statements starts, or the given place where there is none.
#[cycle(start)]
pub(crate) fn first_start(all: &[Placed], place: Place) -> Place
    ensures { result ≡ body_start (map lowering_of all.now) place }
{
    match all.first() {
        None => place,
        Some(first) => start_of(first),
    }
}

fn part_start(part: &Option<Boxed<Placed>>, place: Place) -> Place
    ensures { result ≡ option_map_or (λ s. s.start) (option_map lowering_of part.now) place }
{
    match part {
        None => place,
        Some(part) => start_of(part.get()),
    }
}

impl Builder {
    /// One edge.
    fn step(&mut self, from: u16, act: Action, to: u16) -> Result<(), BuildFault>
        ensures { Draws result self.new (with_edge from act to self.old.flow) }
    {
        self.add_edge(from, act, to)?;
        Ok(())
    }

    /// One silent edge, which stands for a part that isn't there.
    fn skip_silent(&mut self, route: Route) -> Result<(), BuildFault>
        ensures { Draws result self.new (with_silent route.from Action.Skip route.to self.old.flow) }
    {
        self.add_silent(route.from, Action::Skip, route.to)?;
        Ok(())
    }

    /// A statement along a route.
    #[cycle(lower)]
    pub(crate) fn lower(&mut self, placed: &Placed, route: Route) -> Result<(), BuildFault>
        ensures { Draws result self.new ((lowering_of placed.now).lower (route_of route) self.old.flow) }
    {
        self.lower_stmt(&placed.stmt, placed.place, route)
    }

    #[cycle(lower)]
    fn lower_stmt(&mut self, stmt: &Stmt, place: Place, route: Route) -> Result<(), BuildFault>
        ensures { Draws result self.new ((lowering_at stmt.now place).lower (route_of route) self.old.flow) }
    {
        let Route { from, to, .. } = route;
        match stmt {
            Stmt::Declare(x, None) => self.step(from, Action::Nondet(*x), to),
            Stmt::Declare(x, Some(e)) => self.assign(*x, e, place, from, to),
            Stmt::DeclareThread(_) => self.step(from, Action::Skip, to),
            Stmt::Assign(Target::Local(x), e) => self.assign(*x, e, place, from, to),
            Stmt::Assign(Target::Global(g), e) => self.write(*g, e, place, from, to),
            Stmt::CallOnly(f, args) => self.call_only(*f, args.as_slice(), place, from, to),
            Stmt::If(e, a, b) => match b {
                None => self.lower_if(a.get(), e, place, route),
                Some(b) => {
                    let node = self.then_part(a.get(), start_of(b.get()), e, place, route)?;
                    self.lower(b.get(), route.starting_at(node + 1))
                }
            },
            Stmt::While(e, body) => self.lower_while(body.get(), e, place, route),
            Stmt::DoWhile(body, e) => self.lower_do(body.get(), e, place, route),
            Stmt::For(first, test, last, body) => {
                let node = self.for_first(first.as_slice(), place, route)?;
                let test = self.for_test(test, place, node)?;
                let inside = self.for_body(body.get(), part_start(last, place), test, route)?;
                self.part_or_silent(last, Route::in_loop(inside + 1, node, route.to))
            }
            Stmt::Block(all) => self.sequence(all.as_slice(), route),
            Stmt::Break => self.step(from, Action::Skip, route.on_break),
            Stmt::Continue => self.step(from, Action::Skip, route.on_continue),
            Stmt::Return(None) => self.step(from, Action::Skip, 1),
            Stmt::Return(Some(e)) => self.assign(0, e, place, from, 1),
            Stmt::Create(t, f) => self.step(from, Action::Create(*t, *f), to),
            Stmt::Join(t) => self.step(from, Action::Join(*t), to),
            Stmt::Lock(m) => self.step(from, Action::Lock(*m), to),
            Stmt::Unlock(m) => self.step(from, Action::Unlock(*m), to),
            Stmt::Assert(e) => self.assert(e, place, from, to),
            Stmt::Empty => self.step(from, Action::Skip, to),
        }
    }

    fn assign(
        &mut self,
        x: u16,
        e: &Expr,
        place: Place,
        from: u16,
        to: u16,
    ) -> Result<(), BuildFault>
        ensures { Draws result self.new (last_edge (Action.Assign x) to (hoisted_expr e.now place from self.old.flow)) }
    {
        let value = self.hoisted(e, place, from)?;
        let at = self.at();
        self.step(at, Action::Assign(x, value), to)
    }

    fn write(
        &mut self,
        g: u16,
        e: &Expr,
        place: Place,
        from: u16,
        to: u16,
    ) -> Result<(), BuildFault>
        ensures { Draws result self.new (last_edge (Action.Write g) to (hoisted_expr e.now place from self.old.flow)) }
    {
        let value = self.hoisted(e, place, from)?;
        let at = self.at();
        self.step(at, Action::Write(g, value), to)
    }

    fn assert(&mut self, e: &Expr, place: Place, from: u16, to: u16) -> Result<(), BuildFault>
        ensures { Draws result self.new (last_edge Action.Assert to (hoisted_expr e.now place from self.old.flow)) }
    {
        let value = self.hoisted(e, place, from)?;
        let at = self.at();
        self.step(at, Action::Assert(value), to)
    }

    fn call_only(
        &mut self,
        f: u16,
        args: &[Expr],
        place: Place,
        from: u16,
        to: u16,
    ) -> Result<(), BuildFault>
        ensures { Draws result self.new (call_edge f to (hoisted_exprs args.now place from self.old.flow)) }
    {
        let args = self.hoisted_all(args, place, from)?;
        let at = self.at();
        self.step(at, Action::Call(None, f, args), to)
    }

    /// A list of statements: a new node for each but the first, where it starts.
    #[cycle(lower)]
    pub(crate) fn sequence(&mut self, all: &[Placed], route: Route) -> Result<(), BuildFault>
        ensures { Draws result self.new (sequence (map lowering_of all.now) (route_of route) self.old.flow) }
    {
        if all.is_empty() {
            return self.step(route.from, Action::Skip, route.to);
        }
        let last = all.len() - 1;
        let mut from = route.from;
        for i in 0..last {
            let node = self.add_node(start_of(&all[i + 1]))?;
            self.lower(&all[i], route.starting_at(from).ending_at(node))?;
            from = node;
        }
        self.lower(&all[last], route.starting_at(from))
    }

    #[cycle(lower)]
    fn sequence_or_silent(&mut self, all: &[Placed], route: Route) -> Result<(), BuildFault>
        ensures { Draws result self.new (sequence_or_silent (map lowering_of all.now) (route_of route) self.old.flow) }
    {
        if all.is_empty() {
            return self.skip_silent(route);
        }
        self.sequence(all, route)
    }

    #[cycle(lower)]
    fn part_or_silent(
        &mut self,
        part: &Option<Boxed<Placed>>,
        route: Route,
    ) -> Result<(), BuildFault>
        ensures { Draws result self.new (part_or_silent (option_map lowering_of part.now) (route_of route) self.old.flow) }
    {
        match part {
            None => self.skip_silent(route),
            Some(part) => self.lower(part.get(), route),
        }
    }

    /// An `if` without `else`.
    #[cycle(lower)]
    fn lower_if(
        &mut self,
        a: &Placed,
        e: &Expr,
        place: Place,
        route: Route,
    ) -> Result<(), BuildFault>
        ensures { Draws result self.new (if_flow (lowering_of a.now) None (route_of route) (hoisted_expr e.now place route.from self.old.flow)) }
    {
        let test = self.hoisted(e, place, route.from)?;
        self.one_branch(a, test, route)
    }

    #[cycle(lower)]
    fn one_branch(&mut self, a: &Placed, test: Expr, route: Route) -> Result<(), BuildFault>
        ensures { Draws result self.new (if_flow (lowering_of a.now) None (route_of route) (test, self.old)) }
    {
        let at = self.at();
        let node = self.add_node(start_of(a))?;
        self.add_guards(at, test, node, route.to)?;
        self.lower(a, route.starting_at(node))
    }

    /// An `if` up to its second part, which begins at the node behind the one that is answered.
    #[cycle(lower)]
    fn then_part(
        &mut self,
        a: &Placed,
        second: Place,
        e: &Expr,
        place: Place,
        route: Route,
    ) -> Result<u16, BuildFault>
        ensures number { IfOk result (λ n. (n ≡ next_node (hoisted_expr e.now place route.from self.old.flow).1.flow) × (n < 4095)) }
        ensures flow { Draws result self.new (then_flow (lowering_of a.now) second (route_of route) (hoisted_expr e.now place route.from self.old.flow)) }
    {
        let test = self.hoisted(e, place, route.from)?;
        let node = self.two_nodes(test, start_of(a), second)?;
        self.lower(a, route.starting_at(node))?;
        Ok(node)
    }

    /// The guards to two new nodes, and the first of them.
    fn two_nodes(&mut self, test: Expr, first: Place, second: Place) -> Result<u16, BuildFault>
        ensures number { IfOk result (λ n. (n ≡ next_node self.old.flow) × (n < 4095)) }
        ensures flow { Draws result self.new (if_head first (Some second) 0 (test, self.old)) }
    {
        let at = self.at();
        let node = self.add_node(first)?;
        let other = self.add_node(second)?;
        self.add_guards(at, test, node, other)?;
        Ok(node)
    }

    #[cycle(lower)]
    fn lower_while(
        &mut self,
        body: &Placed,
        e: &Expr,
        place: Place,
        route: Route,
    ) -> Result<(), BuildFault>
        ensures { Draws result self.new (while_flow (lowering_of body.now) (route_of route) (hoisted_expr e.now place route.from self.old.flow)) }
    {
        let test = self.hoisted(e, place, route.from)?;
        self.while_body(body, test, route)
    }

    #[cycle(lower)]
    fn while_body(&mut self, body: &Placed, test: Expr, route: Route) -> Result<(), BuildFault>
        ensures { Draws result self.new (while_flow (lowering_of body.now) (route_of route) (test, self.old)) }
    {
        let at = self.at();
        let node = self.add_node(start_of(body))?;
        self.add_guards(at, test, node, route.to)?;
        self.lower(body, Route::in_loop(node, route.from, route.to))
    }

    #[cycle(lower)]
    fn lower_do(
        &mut self,
        body: &Placed,
        e: &Expr,
        place: Place,
        route: Route,
    ) -> Result<(), BuildFault>
        ensures { Draws result self.new (do_flow (lowering_of body.now) e.now place (route_of route) self.old.flow) }
    {
        let node = self.add_node(place)?;
        self.lower(body, Route::in_loop(route.from, node, route.to))?;
        self.do_test(e, place, node, route)
    }

    fn do_test(&mut self, e: &Expr, place: Place, node: u16, route: Route) -> Result<(), BuildFault>
        ensures { Draws result self.new (do_test e.now place node (route_of route) self.old.flow) }
    {
        let test = self.hoisted(e, place, node)?;
        let at = self.at();
        self.add_guards(at, test, route.from, route.to)?;
        Ok(())
    }

    /// The first part, to the new node of the test.
    #[cycle(lower)]
    fn for_first(&mut self, first: &[Placed], place: Place, route: Route) -> Result<u16, BuildFault>
        ensures number { IfOk result (λ n. n ≡ next_node self.old.flow) }
        ensures flow { Draws result self.new (for_first (map lowering_of first.now) place (route_of route) self.old.flow) }
    {
        let node = self.add_node(place)?;
        self.sequence_or_silent(first, Route::in_loop(route.from, node, route.to))?;
        Ok(node)
    }

    /// The test, which is 1 where there is none (C17, 6.8.5.3).
    fn for_test(&mut self, test: &Option<Expr>, place: Place, node: u16) -> Result<Expr, BuildFault>
        ensures { Hoists result self.new (hoisted_expr (condition test.now) place node self.old.flow) }
    {
        match test {
            None => self.hoisted(&Expr::Number(1, Width::W32), place, node),
            Some(test) => self.hoisted(test, place, node),
        }
    }

    /// The body, from where the test has been hoisted; the last part begins at the node behind the
    /// one that is answered.
    #[cycle(lower)]
    fn for_body(
        &mut self,
        body: &Placed,
        last: Place,
        test: Expr,
        route: Route,
    ) -> Result<u16, BuildFault>
        ensures number { IfOk result (λ n. (n ≡ next_node self.old.flow) × (n < 4095)) }
        ensures flow { Draws result self.new (for_body (lowering_of body.now) last (route_of route) (test, self.old)) }
    {
        let node = self.for_head(test, start_of(body), last, route.to)?;
        self.lower(body, Route::in_loop(node, node + 1, route.to))?;
        Ok(node)
    }

    /// The guards to the new node of the body, which has the node of the last part behind it, and
    /// to the end.
    fn for_head(&mut self, test: Expr, body: Place, last: Place, to: u16) -> Result<u16, BuildFault>
        ensures number { IfOk result (λ n. (n ≡ next_node self.old.flow) × (n < 4095)) }
        ensures flow { Draws result self.new (for_head body last to (test, self.old)) }
    {
        let at = self.at();
        let node = self.add_node(body)?;
        self.add_node(last)?;
        self.add_guards(at, test, node, to)?;
        Ok(node)
    }
}
