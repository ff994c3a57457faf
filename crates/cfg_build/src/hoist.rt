ghost use Rattle.std.specs.Prelude.{◌≡◌, ◌+◌, ◌<◌, ◌≤◌, map, OnOk, IfErr, MatchResult, length};
ghost use Rattle.c_meaning.specs.Graph.{HoistState, next_node, hoisting_of, hoist_all, hoisted_expr, hoisted_exprs, fetch_into, stop_of, binary_join, strict_join, logic_join, right_join, call_fetch};
ghost use Rattle.cfg_build.specs.Growing.{Faults, Hoists, branched};

use crate::builder::Builder;
use crate::fault::BuildFault;
use gob_tree::{Action, BinOp, Boxed, Expr, Place, Seq, Width};

/// Whether an expression has an input: a global, an arbitrary number, or a call.
fn has_input(e: &Expr) -> bool
    ensures { result ≡ (hoisting_of e.now).inputs }
{
    match e {
        Expr::Number(_, _) => false,
        Expr::Local(_) => false,
        Expr::Global(_, _) => true,
        Expr::Nondet(_) => true,
        Expr::Unary(_, a) => has_input(a.get()),
        Expr::Binary(_, a, b) => has_input(a.get()) || has_input(b.get()),
        Expr::Call(_, _, _) => true,
    }
}

/// The truth of the left operand at which `&&` and `||` stop (C17, 6.5.13 and 6.5.14).
fn stop_of(op: BinOp) -> Option<bool>
    ensures { result ≡ stop_of op }
{
    match op {
        BinOp::And => Some(false),
        BinOp::Or => Some(true),
        _ => None,
    }
}

impl Builder {
    /// A statement's expression without its inputs, which are got before, from a node on.
    pub(crate) fn hoisted(&mut self, e: &Expr, place: Place, node: u16) -> Result<Expr, BuildFault>
        ensures { Hoists result self.new (hoisted_expr e.now place node self.old.flow) }
    {
        self.begin(node);
        self.hoist(e, place)
    }

    /// A statement's arguments without their inputs, which are got before, from a node on.
    pub(crate) fn hoisted_all(
        &mut self,
        args: &[Expr],
        place: Place,
        node: u16,
    ) -> Result<Seq<Expr>, BuildFault>
        ensures { Hoists result self.new (hoisted_exprs args.now place node self.old.flow) }
    {
        self.begin(node);
        self.hoist_all(args, place)
    }

    #[cycle(hoist)]
    fn hoist(&mut self, e: &Expr, place: Place) -> Result<Expr, BuildFault>
        ensures { Hoists result self.new ((hoisting_of e.now).hoist place self.old) }
    {
        match e {
            Expr::Number(n, w) => Ok(Expr::Number(*n, *w)),
            Expr::Local(x) => Ok(Expr::Local(*x)),
            Expr::Global(g, w) => {
                let t = self.take_temp(*w)?;
                self.fetch_into(t, place, Action::Read(t, *g))
            }
            Expr::Nondet(w) => {
                let t = self.take_temp(*w)?;
                self.fetch_into(t, place, Action::Nondet(t))
            }
            Expr::Unary(op, a) => {
                let a = self.hoist(a.get(), place)?;
                Ok(Expr::Unary(*op, Boxed::new(self.alloc(), a)?))
            }
            Expr::Binary(op, a, b) => {
                let left = self.hoist(a.get(), place)?;
                self.hoist_right(b.get(), *op, left, place)
            }
            Expr::Call(f, w, args) => {
                let args = self.hoist_all(args.as_slice(), place)?;
                self.fetch_call(*f, *w, args, place)
            }
        }
    }

    /// Arguments from left to right.
    #[cycle(hoist)]
    fn hoist_all(&mut self, args: &[Expr], place: Place) -> Result<Seq<Expr>, BuildFault>
        ensures { Hoists result self.new (hoist_all (map hoisting_of args.now) place self.old) }
    {
        let mut list = Seq::new(self.alloc());
        for arg in args {
            let item = self.hoist(arg, place)?;
            list.push(item)?;
        }
        Ok(list)
    }

    /// The whole of a binary expression, of which the left operand stands: `&&` and `||` branch
    /// only where the right operand has an input.
    #[cycle(hoist)]
    fn hoist_right(
        &mut self,
        right: &Expr,
        op: BinOp,
        left: Expr,
        place: Place,
    ) -> Result<Expr, BuildFault>
        ensures { Hoists result self.new (binary_join op (stop_of op) (hoisting_of right.now) place (left, self.old)) }
    {
        match stop_of(op) {
            None => self.join_strict(right, op, left, place),
            Some(stop) => {
                if has_input(right) {
                    self.join_logic(right, stop, left, place)
                } else {
                    self.join_strict(right, op, left, place)
                }
            }
        }
    }

    #[cycle(hoist)]
    fn join_strict(
        &mut self,
        right: &Expr,
        op: BinOp,
        left: Expr,
        place: Place,
    ) -> Result<Expr, BuildFault>
        ensures { Hoists result self.new (strict_join op (hoisting_of right.now) place (left, self.old)) }
    {
        let right = self.hoist(right, place)?;
        let left = Boxed::new(self.alloc(), left)?;
        let right = Boxed::new(self.alloc(), right)?;
        Ok(Expr::Binary(op, left, right))
    }

    /// The right operand of `&&` or `||` from the branch that doesn't decide.
    #[cycle(hoist)]
    fn join_logic(
        &mut self,
        right: &Expr,
        stop: bool,
        left: Expr,
        place: Place,
    ) -> Result<Expr, BuildFault>
        ensures { Hoists result self.new (logic_join stop (hoisting_of right.now) place (left, self.old)) }
    {
        let p = self.next_node();
        let t = self.take_temp(Width::W32)?;
        self.branch(stop, t, p, left, place)?;
        let right = self.hoist(right, place)?;
        self.join_right(t, p + 2, right)
    }

    /// Guards to two new nodes, of which one decides and leads on to a third; the hoisting goes on
    /// at the other.
    fn branch(
        &mut self,
        stop: bool,
        t: u16,
        p: u16,
        left: Expr,
        place: Place,
    ) -> Result<(), BuildFault>
        requires { p ≡ next_node self.old.flow }
        ensures state { OnOk result (self.new ≡ branched stop place t p left self.old) }
        ensures within { OnOk result (p + 3 ≤ 4096) }
        ensures limit { IfErr result (λ fault. Faults fault (branched stop place t p left self.old).flow) }
    {
        self.add_node(place)?;
        self.add_node(place)?;
        self.add_node(place)?;
        let at = self.at();
        self.add_silent_guards(at, left, p, p + 1)?;
        let decided = if stop { p } else { p + 1 };
        let truth = Expr::Number(i64::from(stop), Width::W32);
        self.add_silent(decided, Action::Assign(t, truth), p + 2)?;
        self.move_to(if stop { p + 1 } else { p });
        Ok(())
    }

    /// The truth of the right operand, joined with the decided one.
    fn join_right(&mut self, t: u16, join: u16, right: Expr) -> Result<Expr, BuildFault>
        ensures { Hoists result self.new (right_join t join (right, self.old)) }
    {
        let right = Boxed::new(self.alloc(), right)?;
        let zero = Boxed::new(self.alloc(), Expr::Number(0, Width::W32))?;
        let truth = Expr::Binary(BinOp::Ne, right, zero);
        let at = self.at();
        self.add_silent(at, Action::Assign(t, truth), join)?;
        self.move_to(join);
        Ok(Expr::Local(t))
    }

    /// Gets a call's result into a temporary.
    fn fetch_call(
        &mut self,
        f: u16,
        width: Width,
        args: Seq<Expr>,
        place: Place,
    ) -> Result<Expr, BuildFault>
        ensures { Hoists result self.new (call_fetch f width place (args, self.old)) }
    {
        let t = self.take_temp(width)?;
        self.fetch_into(t, place, Action::Call(Some(t), f, args))
    }

    /// Gets an input into a temporary by an edge to a new node.
    fn fetch_into(&mut self, t: u16, place: Place, act: Action) -> Result<Expr, BuildFault>
        ensures { Hoists result self.new (fetch_into t place act self.old) }
    {
        let at = self.at();
        let node = self.add_node(place)?;
        self.add_edge(at, act, node)?;
        self.move_to(node);
        Ok(Expr::Local(t))
    }
}
