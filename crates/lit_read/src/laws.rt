//! Laws of texts and tests. The functions do nothing: their contracts are theorems on the definitions alone, by which
//! each answer of `read` comes exactly where it is due.

ghost use Rattle.std.specs.Prelude.{◌≡◌, ◌<◌, ◌≤◌, ◌⊎◌, ◌∷◌, ◌++◌, [], ℕ, Bool, List, length, map, true};
ghost use Rattle.std.specs.List.{AllZip, list_all, AllByRecursion};
ghost use Rattle.lit_read.specs.declared.fault.ReadKind.{ReadKind};
ghost use Rattle.lit_syntax.specs.declared.limits.TheConstants.{TEXT_LIMIT};
ghost use Rattle.lit_syntax.specs.Syntax.{Litmus, IsLitmus, Statements, agent_of};
ghost use Rattle.lit_read.specs.Lines.{lines_of, ended_lines, is_whole_line};
ghost use Rattle.lit_syntax.specs.Tokens.{Token, CutsInto};
ghost use Rattle.lit_syntax.specs.Written.{written_tokens, is_shallow};
ghost use Rattle.lit_syntax.specs.Forms.{Form, IsForm, HasForm, without_blanks};
ghost use Rattle.lit_read.specs.Structure.{is_body_line, LeaveOpen};
ghost use Rattle.lit_read.specs.Faults.{HasFault, IsFirstFault, is_allowed, is_begun, none_misplaced, open_ifs};
ghost use Rattle.lit_read.specs.Spelling.{Spells, AreFormsOf};
ghost use Rattle.lit_syntax.specs.StatementOrder.{statement_count, statements_begun, agents_count, forms_begun};
ghost use Rattle.lit_read.specs.StatementLines.{ListsStatementLines, BeginsOnLine, line_of};
ghost use Rattle.lit_read.specs.Canonical.{canonical_forms, without_empty_elses};
ghost use Rattle.lit_syntax.specs.Parentheses.{without_parentheses};
ghost use Rattle.lit_read.specs.CanonicalText.{canonical};

/// A text is its lines, none of which has a byte 10, each with a byte 10 after it. Where the text does not end with a
/// byte 10, the last one is missing.
pub fn lines_are_joined()
    ensures some { (text : List ℕ) → 1 ≤ length (lines_of text) }
    ensures whole { (text : List ℕ) → list_all is_whole_line (lines_of text) ≡ true }
    ensures ended { (text : List ℕ) → text ++ 10 ∷ [] ≡ ended_lines (lines_of (text ++ 10 ∷ [])) }
    ensures joined { (text : List ℕ) → (text ≡ ended_lines (lines_of text)) ⊎ (text ++ 10 ∷ [] ≡ ended_lines (lines_of text)) }
{}

/// A line is cut into tokens in one way at most.
pub fn cuts_one_way()
    ensures { (line : List ℕ) (tokens others : List Token) → CutsInto line tokens → CutsInto line others → tokens ≡ others }
{}

/// A line has one form at most.
pub fn has_one_form()
    ensures { (line : List ℕ) (form other : Form) → HasForm line form → HasForm line other → form ≡ other }
{}

/// No text spells two tests.
pub fn spells_one_test()
    ensures { (text : List ℕ) (t u : Litmus) → Spells text t → Spells text u → t ≡ u }
{}

/// No forms are those of two tests.
pub fn forms_of_one_test()
    ensures { (forms : List Form) (t u : Litmus) → AreFormsOf forms t → AreFormsOf forms u → t ≡ u }
{}

/// The canonical forms of a test are those of it and of no other test.
pub fn has_canonical_forms()
    ensures its { (t : Litmus) → IsLitmus t → AreFormsOf (canonical_forms t) t }
    ensures only { (t u : Litmus) → IsLitmus t → AreFormsOf (canonical_forms t) u → u ≡ t }
{}

/// After an agent's line and forms of statements, none of them misplaced, those `if`s are open that the forms leave open:
/// so none is open exactly where the forms are those of whole statements. Forms that leave `if`s open are not misplaced.
pub fn leaves_ifs_open()
    ensures left { (given forms : List Form) → is_begun given ≡ true → open_ifs given ≡ [] → list_all is_body_line forms ≡ true
        → AllByRecursion IsForm forms → none_misplaced given forms ≡ true → LeaveOpen (open_ifs (given ++ forms)) forms }
    ensures told { (given forms : List Form) → is_begun given ≡ true → open_ifs given ≡ [] → (opened : List Bool) → LeaveOpen opened forms
        → (none_misplaced given forms ≡ true) × (open_ifs (given ++ forms) ≡ opened) }
{}

/// Two lists of forms of one test differ only in else lines with an empty part, and in parentheses of their check lines.
pub fn differ_by_nothing_else()
    ensures elses { (forms others : List Form) (t : Litmus) → (a : AreFormsOf forms t) → (b : AreFormsOf others t)
        → without_empty_elses a.agents ≡ without_empty_elses b.agents }
    ensures parentheses { (forms others : List Form) (t : Litmus) → IsLitmus t → (a : AreFormsOf forms t) → (b : AreFormsOf others t)
        → without_parentheses (written_tokens a.check) ≡ without_parentheses (written_tokens b.check) }
{}

/// A text spells a test wherever it can: it is no longer than a text may be, its bytes may stand there, its forms
/// without the blank ones are those of the test, and no comparison of its check line stands too deep.
pub fn spells_where_it_can()
    ensures { (text : List ℕ) (forms : List Form) (t : Litmus) → IsLitmus t → length text ≤ TEXT_LIMIT → list_all is_allowed text ≡ true
        → AllZip HasForm (lines_of text) forms → (are : AreFormsOf (without_blanks forms) t) → is_shallow are.check ≡ true → Spells text t }
{}

/// A test that a text spells is within the limits and rules of a test.
pub fn spells_within_limits()
    ensures { (text : List ℕ) (t : Litmus) → Spells text t → IsLitmus t }
{}

/// No text spells a test and has a fault.
pub fn spells_or_is_faulty()
    ensures { (text : List ℕ) (t : Litmus) (kind : ReadKind) (line : ℕ) → Spells text t → ¬ HasFault text kind line }
{}

/// No text has two first faults.
pub fn has_one_first_fault()
    ensures { (text : List ℕ) (kind other : ReadKind) (line n : ℕ) → IsFirstFault text kind line → IsFirstFault text other n
        → (kind ≡ other) × (line ≡ n) }
{}

/// Each text spells a test or has a first fault.
pub fn each_text_is_told()
    ensures { (text : List ℕ) → ((t : Litmus) × Spells text t) ⊎ ((kind : ReadKind) × (line : ℕ) × IsFirstFault text kind line) }
{}

/// The lines of a test's canonical text have its canonical forms. So they have forms of that test, and of no other.
pub fn has_canonical_text()
    ensures lines { (t : Litmus) → IsLitmus t → AllZip HasForm (lines_of (canonical t)) (canonical_forms t) }
    ensures its { (t : Litmus) → IsLitmus t
        → (forms : List Form) × AllZip HasForm (lines_of (canonical t)) forms × AreFormsOf (without_blanks forms) t }
    ensures only { (t u : Litmus) (forms : List Form) → IsLitmus t → AllZip HasForm (lines_of (canonical t)) forms
        → AreFormsOf (without_blanks forms) u → u ≡ t }
{}

/// The canonical text of a test spells the test, where it is no longer than a text may be.
pub fn spells_its_test()
    ensures { (t : Litmus) → IsLitmus t → length (canonical t) ≤ TEXT_LIMIT → Spells (canonical t) t }
{}

/// The lines on which the statements of a text begin are those of its test's statements, in the order in which these are
/// written: as many, with their first forms, and agent after agent.
pub fn statements_have_lines()
    ensures forms { (text : List ℕ) (t : Litmus) (lines : List ℕ) → Spells text t → ListsStatementLines text lines
        → AllZip HasForm (map (line_of text) lines) (forms_begun t) }
    ensures count { (text : List ℕ) (t : Litmus) (lines : List ℕ) → Spells text t → ListsStatementLines text lines
        → length lines ≡ agents_count t.agents }
    ensures each { (text : List ℕ) (t : Litmus) (lines : List ℕ) (agent k : ℕ) → Spells text t → ListsStatementLines text lines
        → agent < length t.agents → k < statement_count (agent_of t agent).body → (n : ℕ) × BeginsOnLine text t lines agent k n }
    ensures begun { (body : Statements) → length (statements_begun body) ≡ statement_count body }
{}
