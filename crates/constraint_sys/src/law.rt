//! The law of turns, for every program, table and trace: a turn keeps a sound table sound, a replay
//! has one result, and a sound table with nothing dirty is a post-solution. Each function below is
//! its contract alone and does nothing.
ghost use Rattle.std.specs.Prelude.{◌≡◌, ◌≢◌, ℕ, All, Contains, List, [], ◌∷◌, ◌++◌, Some, slice_get};
ghost use Rattle.gob_tree.specs.Formed.{IsFormed};
ghost use Rattle.gob_tree.specs.declared.graph.Edge.{Edge};
ghost use Rattle.gob_tree.specs.declared.graph.Program.{Program};
ghost use Rattle.gob_tree.specs.declared.unit.GlobalDecl.{GlobalDecl};
ghost use Rattle.interval_dom.specs.Bounds.{Bounds, Describes};
ghost use Rattle.constraint_sys.specs.Table.{TableValue, IsThere, shown, value_at};
ghost use Rattle.constraint_sys.specs.declared.unknown.Key.{Key};
ghost use Rattle.constraint_sys.specs.declared.unknown.Unknown.TheVariants.{Point, Global};
ghost use Rattle.constraint_sys.specs.declared.value.Effect.{Effect};
ghost use Rattle.constraint_sys.specs.declared.value.Value.{Value};
ghost use Rattle.constraint_sys.specs.declared.value.Value.TheVariants.{State, Number};
ghost use Rattle.constraint_sys.specs.Contribution.{contribution_of, edges_into, outcome_of};
ghost use Rattle.constraint_sys.specs.PostSolution.{BoundsAt, IsPostSolution, initial_value};
ghost use Rattle.constraint_sys.specs.Sound.{IsShaped, IsShapedEntry, IsSound, IsTurnable};
ghost use Rattle.constraint_sys.specs.Turn.{Solving, Turns, Replays, initial_of};
ghost use Rattle.constraint_sys.specs.declared.unknown.Unknown.{Unknown};

/// The initial table of a formed program, whose dirty points are the nodes of `main` but its
/// start, is sound.
pub fn initial_is_sound()
    ensures { (p : Program) → IsFormed p → IsSound p (initial_of p) }
{}

/// A turn of a dirty point of a sound table leaves a sound table: each point that isn't dirty
/// afterwards is satisfied.
pub fn turns_keep_sound()
    ensures { (p : Program) (old : Solving) (u : Unknown) (new : Solving) → IsFormed p → IsSound p old → Turns p old u new → IsSound p new }
{}

/// A turn keeps shape, and that each dirty point is one of the table that can turn, of every table
/// that has both.
pub fn turns_keep_turnable()
    ensures { (p : Program) (old : Solving) (u : Unknown) (new : Solving) → IsFormed p → IsTurnable p old → Turns p old u new → IsTurnable p new }
{}

/// A replay goes on by one turn: the trace and the turned unknown lead to what the turn gives.
pub fn replays_go_on()
    ensures { (p : Program) (old : Solving) (trace : List Unknown) (mid : Solving) (u : Unknown) (new : Solving) → Replays p old trace mid → Turns p mid u new → Replays p old (trace ++ u ∷ []) new }
{}

/// A turn and a replay have one result.
pub fn replays_are_one()
    ensures turn { (p : Program) (old : Solving) (u : Unknown) (one other : Solving) → Turns p old u one → Turns p old u other → one ≡ other }
    ensures replay { (p : Program) (old : Solving) (trace : List Unknown) (one other : Solving) → Replays p old trace one → Replays p old trace other → one ≡ other }
{}

/// In every table that a replay gives from a sound one each point that isn't dirty is satisfied, and
/// from a turnable one what it gives is turnable.
pub fn replays_are_sound()
    ensures sound { (p : Program) (old : Solving) (trace : List Unknown) (new : Solving) → IsFormed p → IsSound p old → Replays p old trace new → IsSound p new }
    ensures turnable { (p : Program) (old : Solving) (trace : List Unknown) (new : Solving) → IsFormed p → IsTurnable p old → Replays p old trace new → IsTurnable p new }
{}

/// A sound table with nothing dirty is a post-solution.
pub fn clean_is_post_solution()
    ensures { (p : Program) (s : Solving) → IsSound p s → s.dirty ≡ [] → IsPostSolution p s.table }
{}

/// In a shaped post-solution each edge that ends in a point of the table is bounded: its state at
/// the point, and each of its effects at the effect's target.
pub fn post_solutions_bound_edges()
    ensures state { (p : Program) (t : TableValue) (f : ℕ) (key : Key) (node : ℕ) (e : Edge) → IsFormed p → IsShaped p t → IsPostSolution p t → IsThere t (Point f key node) → node ≢ 0 → Contains (edges_into p f node) e → BoundsAt t (Point f key node) (State (outcome_of p t f key e).value) }
    ensures effects { (p : Program) (t : TableValue) (f : ℕ) (key : Key) (node : ℕ) (e : Edge) (x : Effect) → IsPostSolution p t → IsThere t (Point f key node) → node ≢ 0 → Contains (edges_into p f node) e → Contains (outcome_of p t f key e).effects x → BoundsAt t x.target x.value }
{}

/// What a point of a shaped table of a formed program gets fits it, and each effect fits its target:
/// in a slot or a global stands an interval of its width alone, and a context is one of its function.
pub fn contributions_fit()
    ensures value { (p : Program) (t : TableValue) (f : ℕ) (key : Key) (node : ℕ) → IsFormed p → IsShaped p t → IsThere t (Point f key node) → IsShapedEntry p (Point f key node) (State (contribution_of p t f key node).value) }
    ensures effects { (p : Program) (t : TableValue) (f : ℕ) (key : Key) (node : ℕ) → IsFormed p → IsShaped p t → IsThere t (Point f key node) → All (λ (e : Effect). IsShapedEntry p e.target e.value) (contribution_of p t f key node).effects }
{}

/// A global's initial value describes the number with which it begins, and fits its width.
pub fn initial_values_fit()
    ensures number { (decl : GlobalDecl) (x : Bounds) → initial_value decl ≡ Number x → Describes x decl.initial }
    ensures fits { (p : Program) (g : ℕ) (decl : GlobalDecl) → IsFormed p → slice_get p.globals g ≡ Some decl → IsShapedEntry p (Global g) (initial_value decl) }
{}

/// A point gets the same, effects and reads too, from two tables that show the same at each unknown
/// that it reads in one of them.
pub fn contributions_are_local()
    ensures { (p : Program) (old new : TableValue) (f : ℕ) (key : Key) (node : ℕ) → ((r : Unknown) → Contains (contribution_of p old f key node).reads r → shown (value_at new r) ≡ shown (value_at old r)) → contribution_of p new f key node ≡ contribution_of p old f key node }
{}

/// A turn only raises: what the table bounded before it bounds afterwards.
pub fn turns_only_raise()
    ensures { (p : Program) (old : Solving) (u : Unknown) (new : Solving) (r : Unknown) (v : Value) → IsFormed p → IsTurnable p old → Turns p old u new → BoundsAt old.table r v → BoundsAt new.table r v }
{}
