//! Laws of the definitions that the contracts cite. The functions do nothing: their contracts are theorems.

ghost use Rattle.std.specs.Prelude.{◌≡◌, ◌↔◌, ℕ, ◌+◌, ◌<◌, ◌≤◌, List, Contains, length, map, Some, slice_get};
ghost use Rattle.lit_syntax.specs.Syntax.{Litmus, IsLitmus, Statements, AreStatementsIn};
ghost use Rattle.lit_syntax.specs.Forms.{StatementLine};
ghost use Rattle.lit_syntax.specs.StatementOrder.{statements_begun};
ghost use Rattle.lit_paths.specs.declared.event.Event.{Event};
ghost use Rattle.lit_paths.specs.Choice.{combinations_of, sources_of};
ghost use Rattle.lit_paths.specs.Execution.{Execution, execution_choice, IsCandidateExecution};
ghost use Rattle.lit_paths.specs.Members.{AreSources, IsChoice, IsWalk, ListsChoices, ListsCombinations};
ghost use Rattle.lit_paths.specs.Numbers.{NumbersChoices};
ghost use Rattle.lit_paths.specs.Path.{Step, path_on, walks_of};
ghost use Rattle.lit_paths.specs.PathModel.{access_count, path_model};
ghost use Rattle.lit_paths.specs.Plan.{choices_before, walk_in, IsOfCombination, IsWalkIn};
ghost use Rattle.lit_paths.specs.Run.{Run, IsRun};
ghost use Rattle.lit_paths.specs.StatementNumbers.{AreMakers, accesses_met};
ghost use Rattle.lit_paths.specs.Told.{read_places, TellsRuns};

/// The list of a test's choices has exactly its choices, each once, and rises strictly: so a choice's number, its place
/// in the list, is how many choices come before it.
pub fn choices_are_listed()
    ensures { (t : Litmus) → ListsChoices t }
{}

/// The list of a test's combinations has exactly what is combined of a path for each agent, each once, and rises
/// strictly by the paths' decisions.
pub fn combinations_are_listed()
    ensures { (t : Litmus) → ListsCombinations t }
{}

/// The list of the walks through statements has exactly the walks, and the list of the sources that byte reads can have exactly
/// these sources.
pub fn walks_and_sources_are_listed()
    ensures walks { (body : Statements) (steps : List Step) → Contains (walks_of body) steps ↔ IsWalk body steps }
    ensures sources { (events : List Event) (sources : List ℕ) → Contains (sources_of events) sources ↔ AreSources events sources }
{}

/// The choices on a combination that begin with given sources have a run of numbers, whose length is the product of the
/// numbers of candidates of the byte reads not given yet.
pub fn choices_have_numbers()
    ensures { (t : Litmus) (c : ℕ) → c < length (combinations_of t) → NumbersChoices t c }
{}

/// The numbers of a combination's choices are those after the choices of the combinations before it: such a choice has
/// the combination's decisions, and its executions run on the combination's paths.
pub fn choices_are_on_combinations()
    ensures { (t : Litmus) (n c : ℕ) → c < length (combinations_of t) → choices_before t c ≤ n → n < choices_before t (c + 1)
        → IsOfCombination t n c }
{}

/// On a combination of a test that a text can say, each agent's path is that of a walk through its statements.
pub fn combinations_are_walked()
    ensures { (t : Litmus) (c agent : ℕ) → IsLitmus t → c < length (combinations_of t) → agent < length t.agents
        → IsWalkIn t c agent (walk_in t c agent) }
{}

/// Of statements that a text can say (decision 12): there is a run on a path with given values exactly where each guard of
/// the path is true of them, and its registers hold the reads that the path says.
pub fn paths_tell_their_runs()
    ensures { (bytes owner : ℕ) (body : Statements) (steps : List Step) → AreStatementsIn bytes body → IsWalk body steps
        → TellsRuns owner body (path_on owner steps) (path_model owner steps) }
{}

/// A run has one chosen value for each of its reads.
pub fn runs_choose_for_each_read()
    ensures { (owner : ℕ) (body : Statements) (run : Run) → IsRun owner body run → length run.values ≡ length (read_places run.events) }
{}

/// The decisions and sources of every candidate execution of a test are a choice of the test. So the choices have every
/// decision of a run.
pub fn candidate_executions_have_choices()
    ensures { (t : Litmus) (x : Execution) → IsCandidateExecution t x → IsChoice t (execution_choice x) }
{}

/// The values that the agents chose, with the sources, belong to one choice at most.
pub fn values_have_one_choice()
    ensures { (t : Litmus) (x y : Execution) → IsCandidateExecution t x → IsCandidateExecution t y
        → map (λ run. run.values) x.runs ≡ map (λ run. run.values) y.runs → x.sources ≡ y.sources
        → execution_choice x ≡ execution_choice y }
{}

/// The events of a walk have one list of statements that make them: one for each, rising strictly, of which each begins
/// with the line of the access that is met there.
pub fn events_have_statements()
    ensures some { (n : ℕ) (body : Statements) (steps : List Step) → IsWalk body steps → (makers : List ℕ) × AreMakers n body steps makers }
    ensures one { (n : ℕ) (body : Statements) (steps : List Step) (makers others : List ℕ) → AreMakers n body steps makers
        → AreMakers n body steps others → makers ≡ others }
    ensures one_each { (n : ℕ) (body : Statements) (steps : List Step) (makers : List ℕ) → AreMakers n body steps makers
        → length makers ≡ access_count steps }
    ensures rising { (n : ℕ) (body : Statements) (steps : List Step) (makers : List ℕ) (i j m k : ℕ) → AreMakers n body steps makers → i < j
        → slice_get makers i ≡ Some m → slice_get makers j ≡ Some k → m < k }
    ensures met { (body : Statements) (steps : List Step) (makers : List ℕ) → AreMakers 0 body steps makers
        → map (λ m. slice_get (statements_begun body) m) makers ≡ map (λ s. Some (StatementLine s)) (accesses_met steps) }
{}
