//! A draft: the part of a test that the lines read so far say.

pub(crate) mod accesses;
pub(crate) mod checking;
pub(crate) mod conditions;

ghost use Rattle.std.specs.Prelude.{◌≡◌, ◌<◌, string_bytes, false, IfOk, Ok};
ghost use Rattle.std.specs.List.{list_any};
ghost use Rattle.std.specs.Str.{bytes_eq};
ghost use Rattle.lit_syntax.specs.Litmus.{statements_of, agents_view};
ghost use Rattle.lit_read.specs.Internal.State.{test_step, block_step, agent_step, statement_step, if_step, else_step};
ghost use Rattle.lit_read.specs.Internal.State.{end_step, step, check_step, with_agent, followed_by, IsState};
ghost use Rattle.lit_read.specs.Internal.Views.{Returns, state_view, form_view, open_view};

use crate::draft::accesses::checked_access;
use crate::draft::checking::{are_known, are_small};
use crate::draft::conditions::condition;
use crate::fault::ReadKind;
use crate::forms::marks::Mark;
use crate::forms::{Access, Form, Line};
use indexmap::IndexMap;
use lit_syntax::{AGENT_LIMIT, BLOCK_LIMIT, COMPARED_LIMIT, IF_LIMIT, Stmt, Test};
use std::alloc::{AllocError, Global};

/// An open `if`: its line, the statements before it, and the then-part once the else line has come.
#[derive(Drop)]
pub struct OpenIf {
    reg: u8,
    equal: bool,
    value: u32,
    before: Vec<Stmt>,
    then_part: Option<Vec<Stmt>>,
}

/// An agent that more statements may follow, and the agents before it. The innermost open `if` is the last, and `body` has
/// the statements of its open part.
#[derive(Drop)]
pub struct Open {
    name: String,
    bytes: u8,
    agents: IndexMap<String, Vec<Stmt>>,
    agent: String,
    ifs: Vec<OpenIf>,
    body: Vec<Stmt>,
}

/// What the lines read so far say.
#[derive(Drop)]
pub enum Draft {
    Empty,
    Named(String),
    Sized { name: String, bytes: u8 },
    Open(Open),
    Whole(Test),
}

/// The agents, with one more at the end.
fn with_last(
    agents: IndexMap<String, Vec<Stmt>>,
    agent: String,
    body: Vec<Stmt>,
) -> Result<IndexMap<String, Vec<Stmt>>, AllocError>
    requires { list_any (λ a. bytes_eq (string_bytes agent) a.name) (agents_view agents.entries) ≡ false }
    ensures { IfOk result
        (λ more. agents_view more.entries ≡ with_agent (agents_view agents.entries) (string_bytes agent) (statements_of body.items)) }
{
    let mut agents = agents;
    agents.insert(agent, body)?;
    Ok(agents)
}

impl OpenIf {
    ghost use Rattle.lit_syntax.specs.Litmus.{statement_of};
    ghost use Rattle.lit_read.specs.Internal.State.{ended_if};
    ghost use Rattle.lit_read.specs.Internal.Views.{open_if_view, part_view};

    /// The statements before an `if`, and the whole `if`, whose last part has these statements.
    fn ended(self, alloc: Global, body: Vec<Stmt>) -> Result<Vec<Stmt>, AllocError>
        ensures { IfOk result
            (λ all. statements_of all.items
            ≡ followed_by (statements_of self.before.items)
            (ended_if (open_if_view self) (statements_of body.items) (part_view self.then_part))) }
    {
        let OpenIf {
            reg,
            equal,
            value,
            before,
            then_part,
        } = self;
        let (body, other) = match then_part {
            Some(part) => (part, body),
            None => (body, Vec::new(alloc)),
        };
        let mut all = before;
        all.push(Stmt::If {
            reg,
            equal,
            value,
            body,
            other,
        })?;
        Ok(all)
    }
}

impl Open {
    ghost use Rattle.lit_syntax.specs.Litmus.{statement_of};
    ghost use Rattle.lit_syntax.specs.Written.{Written};
    ghost use Rattle.lit_syntax.specs.Forms.{IsForm, CheckLine};
    ghost use Rattle.lit_read.specs.Internal.Marks.{written_marks};
    ghost use Rattle.lit_read.specs.Internal.State.{Whole, with_statement};
    ghost use Rattle.lit_read.specs.Internal.Views.{access_view, mark_views};

    /// With one statement more.
    fn with_statement(self, stmt: Stmt) -> Result<Open, ReadKind>
        ensures { Returns open_view result (Ok (with_statement (open_view self) (statement_of stmt))) }
    {
        let mut body = self.body;
        body.push(stmt)?;
        Ok(Open { body, ..self })
    }

    /// With one access more.
    #[tactic(auto, unfolding(crate::specs::Internal::State::statement_step))]
    fn access(self, access: Access) -> Result<Open, ReadKind>
        ensures { Returns open_view result (statement_step (open_view self) (access_view access)) }
    {
        let stmt = checked_access(self.bytes, access)?;
        self.with_statement(stmt)
    }

    /// Begins an `if`.
    #[tactic(auto, unfolding(crate::specs::Internal::State::if_step))]
    fn begin_if(self, alloc: Global, reg: u8, equal: bool, value: u64) -> Result<Open, ReadKind>
        ensures { Returns open_view result (if_step (open_view self) reg equal value) }
    {
        if value > COMPARED_LIMIT {
            return Err(ReadKind::LiteralRange);
        }
        if self.ifs.len() >= IF_LIMIT {
            return Err(ReadKind::TooDeep);
        }
        let mut ifs = self.ifs;
        ifs.push(OpenIf {
            reg,
            equal,
            value: value as u32,
            before: self.body,
            then_part: None,
        })?;
        Ok(Open {
            ifs,
            body: Vec::new(alloc),
            ..self
        })
    }

    /// Begins the else-part of the innermost `if`.
    #[tactic(auto, unfolding(crate::specs::Internal::State::else_step))]
    fn begin_else(self, alloc: Global) -> Result<Open, ReadKind>
        ensures { Returns open_view result (else_step (open_view self)) }
    {
        let mut ifs = self.ifs;
        let Some(open_if) = ifs.pop() else {
            return Err(ReadKind::Misplaced);
        };
        if open_if.then_part.is_some() {
            return Err(ReadKind::Misplaced);
        }
        ifs.push(OpenIf {
            reg: open_if.reg,
            equal: open_if.equal,
            value: open_if.value,
            before: open_if.before,
            then_part: Some(self.body),
        })?;
        Ok(Open {
            ifs,
            body: Vec::new(alloc),
            ..self
        })
    }

    /// Ends the innermost `if`.
    #[tactic(auto, unfolding(crate::specs::Internal::State::end_step))]
    fn end_if(self, alloc: Global) -> Result<Open, ReadKind>
        ensures { Returns open_view result (end_step (open_view self)) }
    {
        let mut ifs = self.ifs;
        let Some(innermost) = ifs.pop() else {
            return Err(ReadKind::Misplaced);
        };
        let body = innermost.ended(alloc, self.body)?;
        Ok(Open { ifs, body, ..self })
    }

    /// Whether an agent so far has this name.
    fn has_agent(&self, name: &str) -> bool
        ensures { result ≡ list_any (λ a. bytes_eq name.now a.name)
            (with_agent (agents_view self.now.agents.entries) (string_bytes self.now.agent) (statements_of self.now.body.items)) }
    {
        self.agents.contains_key(name) || name == self.agent.as_str()
    }

    /// Begins the next agent.
    #[tactic(auto, unfolding(crate::specs::Internal::State::agent_step, crate::specs::Internal::State::next_step))]
    fn next(self, alloc: Global, name: &str) -> Result<Open, ReadKind>
        requires { IsState (open_view self) }
        ensures { Returns open_view result (agent_step (open_view self) name.now) }
    {
        let is_inside_if = !self.ifs.is_empty();
        if is_inside_if {
            return Err(ReadKind::Misplaced);
        }
        if self.agents.len() + 1 >= AGENT_LIMIT {
            return Err(ReadKind::TooManyAgents);
        }
        if self.has_agent(name) {
            return Err(ReadKind::DuplicateAgent);
        }
        Ok(Open {
            name: self.name,
            bytes: self.bytes,
            agents: with_last(self.agents, self.agent, self.body)?,
            agent: String::from_str(alloc, name)?,
            ifs: self.ifs,
            body: Vec::new(alloc),
        })
    }

    /// Ends the text with its condition.
    fn check(self, alloc: Global, marks: &[Mark<'_>]) -> Result<Test, ReadKind>
        requires sound { IsState (open_view self) }
        requires form { (w : Written) × (mark_views marks.now ≡ written_marks w) × IsForm (CheckLine w) }
        ensures { (w : Written) → mark_views marks.now ≡ written_marks w → Returns (λ t. Whole t) result (check_step (open_view self) w) }
    {
        if !self.ifs.is_empty() {
            return Err(ReadKind::Misplaced);
        }
        if !are_small(marks) {
            return Err(ReadKind::LiteralRange);
        }
        let agents = with_last(self.agents, self.agent, self.body)?;
        if !are_known(&agents, marks) {
            return Err(ReadKind::UnknownName);
        }
        let check = condition(alloc, &agents, marks)?;
        Ok(Test::new(self.name, self.bytes, agents, check))
    }
}

impl Draft {
    ghost use Rattle.lit_syntax.specs.Forms as shapes;
    ghost use Rattle.lit_syntax.specs.Forms.{IsForm};
    ghost use Rattle.lit_read.specs.Internal.Views.{Shows};

    #[tactic(auto, unfolding(crate::specs::Internal::State::test_step))]
    fn test(self, alloc: Global, name: &str) -> Result<Draft, ReadKind>
        ensures { Returns state_view result (test_step (state_view self) name.now) }
    {
        match self {
            Draft::Empty => Ok(Draft::Named(String::from_str(alloc, name)?)),
            _ => Err(ReadKind::Misplaced),
        }
    }

    #[tactic(auto, unfolding(crate::specs::Internal::State::block_step))]
    fn block(self, bytes: u64) -> Result<Draft, ReadKind>
        ensures { Returns state_view result (block_step (state_view self) bytes) }
    {
        match self {
            Draft::Named(name) => {
                if bytes == 0 || bytes > BLOCK_LIMIT as u64 {
                    return Err(ReadKind::BlockSize);
                }
                Ok(Draft::Sized {
                    name,
                    bytes: bytes as u8,
                })
            }
            _ => Err(ReadKind::Misplaced),
        }
    }

    #[tactic(auto, unfolding(crate::specs::Internal::State::agent_step))]
    fn agent(self, alloc: Global, agent: &str) -> Result<Draft, ReadKind>
        requires { IsState (state_view self) }
        ensures { Returns state_view result (agent_step (state_view self) agent.now) }
    {
        match self {
            Draft::Sized { name, bytes } => Ok(Draft::Open(Open {
                name,
                bytes,
                agents: IndexMap::new(alloc),
                agent: String::from_str(alloc, agent)?,
                ifs: Vec::new(alloc),
                body: Vec::new(alloc),
            })),
            Draft::Open(open) => Ok(Draft::Open(open.next(alloc, agent)?)),
            _ => Err(ReadKind::Misplaced),
        }
    }

    #[tactic(auto, unfolding(crate::specs::Internal::State::if_step))]
    fn begin_if(self, alloc: Global, reg: u8, equal: bool, value: u64) -> Result<Draft, ReadKind>
        requires { IsState (state_view self) }
        ensures { Returns state_view result (if_step (state_view self) reg equal value) }
    {
        match self {
            Draft::Open(open) => Ok(Draft::Open(open.begin_if(alloc, reg, equal, value)?)),
            _ => Err(ReadKind::Misplaced),
        }
    }

    #[tactic(auto, unfolding(crate::specs::Internal::State::else_step))]
    fn begin_else(self, alloc: Global) -> Result<Draft, ReadKind>
        requires { IsState (state_view self) }
        ensures { Returns state_view result (else_step (state_view self)) }
    {
        match self {
            Draft::Open(open) => Ok(Draft::Open(open.begin_else(alloc)?)),
            _ => Err(ReadKind::Misplaced),
        }
    }

    #[tactic(auto, unfolding(crate::specs::Internal::State::end_step))]
    fn end_if(self, alloc: Global) -> Result<Draft, ReadKind>
        requires { IsState (state_view self) }
        ensures { Returns state_view result (end_step (state_view self)) }
    {
        match self {
            Draft::Open(open) => Ok(Draft::Open(open.end_if(alloc)?)),
            _ => Err(ReadKind::Misplaced),
        }
    }

    /// What the lines so far and a line of this form say.
    #[tactic(auto, unfolding(crate::specs::Internal::State::step, crate::specs::Internal::State::statement_step))]
    fn add_form(self, alloc: Global, form: Form<'_>) -> Result<Draft, ReadKind>
        requires { IsState (state_view self) }
        ensures { Returns state_view result (step (state_view self) (form_view form.entry)) }
    {
        match form {
            Form::Blank => Ok(self),
            Form::Test(name) => self.test(alloc, name),
            Form::Bytes(bytes) => self.block(bytes),
            Form::Agent(name) => self.agent(alloc, name),
            Form::Access(access) => match self {
                Draft::Open(open) => Ok(Draft::Open(open.access(access)?)),
                _ => Err(ReadKind::Misplaced),
            },
            Form::If { reg, equal, value } => self.begin_if(alloc, reg, equal, value),
            Form::Else => self.begin_else(alloc),
            Form::End => self.end_if(alloc),
        }
    }

    /// What the lines so far and this line say.
    pub fn add(self, alloc: Global, line: Line<'_>) -> Result<Draft, ReadKind>
        requires sound { IsState (state_view self) }
        requires form { (f : shapes.Form) × Shows line f × IsForm f }
        ensures { (f : shapes.Form) → Shows line.entry f → Returns state_view result (step (state_view self) f) }
    {
        match line {
            Line::Fixed(form) => self.add_form(alloc, form),
            Line::Check(marks) => match self {
                Draft::Open(open) => Ok(Draft::Whole(open.check(alloc, &marks)?)),
                _ => Err(ReadKind::Misplaced),
            },
        }
    }
}
