//! Reads types and values into steps that are done one after the other (WGSL: expression grammar;
//! operator precedence and associativity).

ghost use Rattle.std.specs.Prelude.{◌≡◌, ◌↔◌, IsTrue, true, false, ℕ, ◌+◌, ◌-◌, ◌++◌, ◌∷◌, [], take, reverse, Some, IsSome, IfSome, IfOk, OnOk, IfErr, OnErr, vec_len, slice_get, length, if◌then◌else◌};
ghost use Rattle.wgsl_rules.specs.Text.{unary_text, binary_text};
ghost use Rattle.wgsl_rules.specs.declared.syntax.BinaryOperator.{BinaryOperator};
ghost use Rattle.wgsl_rules.specs.declared.syntax.UnaryOperator.{UnaryOperator};
ghost use Rattle.wgsl_source.specs.Cursors.{fault_of};
ghost use Rattle.wgsl_source.specs.Declarations.{IsBehind};
ghost use Rattle.wgsl_source.specs.Expressions.{is_mixed_in, operator_in, MayDouble, StandsBefore, IsDouble};
ghost use Rattle.wgsl_source.specs.Operators.{precedence_of};

use crate::cursor::{Cursor, Stop};
use crate::fault::{Expected, Fault, Reason};
use crate::mixes::may_join;
use crate::token::TokenKind;
use std::alloc::Global;
use wgsl_rules::{BinaryOperator, UnaryOperator};

/// The most brackets that stand inside each other, operators before an operand included.
const DEPTH: usize = 4096;

/// A step: what it leaves takes the place of what it needs, which are the last answers before it.
/// Each names its token.
#[derive(Clone, Copy, Debug, PartialEq, Eq)]
pub enum Step {
    Name(usize),
    Number(usize),
    /// Of one answer.
    Unary(UnaryOperator, usize),
    /// Of two answers.
    Binary(BinaryOperator, usize),
    /// A name with a template list of so many answers.
    Template(usize, usize),
    /// A call with so many answers; of a name, or of the answer before these.
    Call(usize, Callee, usize),
    /// A member of an answer.
    Member(usize),
    /// An element of an answer.
    Index(usize),
}

/// What is called.
#[derive(Clone, Copy, Debug, PartialEq, Eq)]
pub enum Callee {
    Name,
    Answer,
}

/// The steps of an expression, among those of the source, and the token that it begins with.
#[derive(Clone, Copy, Debug, PartialEq, Eq)]
pub struct Span {
    pub token: usize,
    pub start: usize,
    pub end: usize,
}

/// What waits for an operand or for its closing bracket.
#[derive(Clone, Copy)]
enum Open {
    Group,
    Index(usize),
    Template(usize, usize),
    Call(usize, Callee, usize),
    Unary(UnaryOperator, usize),
    Binary(BinaryOperator, usize),
}

/// What comes next.
#[derive(Clone, Copy)]
enum Next {
    Operand,
    Operator,
    Done,
}

/// Reads expressions.
#[derive(Drop)]
pub(crate) struct Expressions<'a> {
    pub(crate) cursor: Cursor<'a>,
    pub(crate) steps: Vec<Step>,
    /// What the grammar refuses, where it is read all the same.
    refused: Vec<Fault>,
    open: Vec<Open>,
}

impl<'a> Expressions<'a> {
    pub(crate) fn new(alloc: Global, cursor: Cursor<'a>) -> Self
        ensures steps { result.steps.items ≡ [] }
        ensures refused { result.refused.items ≡ [] }
    {
        Expressions {
            cursor,
            steps: Vec::new(alloc),
            refused: Vec::new(alloc),
            open: Vec::new(alloc),
        }
    }

    /// All steps that were read, and what the grammar refuses in them.
    pub(crate) fn into_steps(self) -> (Vec<Step>, Vec<Fault>)
        ensures steps { result.0.items ≡ self.entry.steps.items }
        ensures refused { result.1.items ≡ self.entry.refused.items }
    {
        (self.steps, self.refused)
    }

    /// How many faults the grammar finds in them.
    pub(crate) fn refused_len(&self) -> usize
        ensures { result ≡ vec_len self.now.refused }
    {
        self.refused.len()
    }

    /// Goes back to where there were so many faults.
    pub(crate) fn go_back(&mut self, cursor: Cursor<'a>, refused: usize)
        ensures cursor { self.new.cursor ≡ cursor.entry }
        ensures steps { self.new.steps.items ≡ self.old.steps.items }
        ensures refused { self.new.refused.items ≡ take refused self.old.refused.items }
    {
        self.cursor = cursor;
        self.refused.truncate(refused);
    }

    /// Reads the longest expression from here on.
    pub(crate) fn expression(&mut self) -> Result<Span, Stop>
        ensures span { IfOk result (λ span. (span.start ≡ vec_len self.old.steps) × (span.end ≡ vec_len self.new.steps)) }
        ensures later { IsBehind self.old.cursor self.new.cursor }
    {
        let token = self.cursor.position();
        let start = self.steps.len();
        self.open.clear();
        let mut next = Next::Operand;
        for _ in self.cursor.position()..=self.cursor.len() {
            next = match next {
                Next::Operand => self.operand()?,
                Next::Operator => self.operator()?,
                Next::Done => break,
            };
        }
        if let Next::Operand = next {
            return Err(self.no_operand());
        }
        self.finish()?;
        Ok(Span {
            token,
            start,
            end: self.steps.len(),
        })
    }

    // Reads what may begin an operand.
    fn operand(&mut self) -> Result<Next, Stop>
        ensures later { IsBehind self.old.cursor self.new.cursor }
    {
        match self.cursor.token().kind {
            TokenKind::Name => self.name(),
            TokenKind::Number => {
                let number = Step::Number(self.cursor.advance());
                self.leave(number)
            }
            TokenKind::Symbol(b'(') => {
                self.cursor.advance();
                self.begin(Open::Group)
            }
            TokenKind::Symbol(symbol) => match unary_operator(symbol) {
                Some(operator) => {
                    self.check_unary(symbol)?;
                    let at = self.cursor.advance();
                    self.begin(Open::Unary(operator, at))
                }
                None => self.end_of_list(),
            },
            TokenKind::TemplateEnd => self.end_of_list(),
            TokenKind::TemplateStart | TokenKind::End => Err(self.no_operand()),
        }
    }

    fn no_operand(&self) -> Stop
        ensures { result ≡ Stop.At self.now.cursor.at (Reason.Expected Expected.Expression) }
    {
        self.cursor.expected(Expected::Expression)
    }

    // A list may end behind a comma, and that of a call may be empty.
    fn end_of_list(&mut self) -> Result<Next, Stop>
        ensures later { IsBehind self.old.cursor self.new.cursor }
    {
        let kind = self.cursor.token().kind;
        match (self.open.last().copied(), kind) {
            (Some(Open::Template(name, count)), TokenKind::TemplateEnd) if count > 0 => {
                self.close(Step::Template(name, count))
            }
            (Some(Open::Call(name, callee, count)), TokenKind::Symbol(b')')) => {
                self.close(Step::Call(name, callee, count))
            }
            _ => Err(self.no_operand()),
        }
    }

    fn name(&mut self) -> Result<Next, Stop>
        ensures later { IsBehind self.old.cursor self.new.cursor }
    {
        let name = self.cursor.advance();
        match self.cursor.token().kind {
            TokenKind::TemplateStart => {
                self.cursor.advance();
                self.begin(Open::Template(name, 0))
            }
            TokenKind::Symbol(b'(') => {
                self.cursor.advance();
                self.begin(Open::Call(name, Callee::Name, 0))
            }
            _ => self.leave(Step::Name(name)),
        }
    }

    // Reads what may stand behind an operand.
    fn operator(&mut self) -> Result<Next, Stop>
        ensures later { IsBehind self.old.cursor self.new.cursor }
    {
        match self.cursor.token().kind {
            TokenKind::TemplateEnd => self.end_template(),
            TokenKind::Symbol(b')') => self.end_group(),
            TokenKind::Symbol(b']') => self.end_index(),
            TokenKind::Symbol(b',') => self.comma(),
            TokenKind::Symbol(b'.') => {
                self.cursor.advance();
                let member = Step::Member(self.cursor.expect_name()?);
                self.leave(member)
            }
            TokenKind::Symbol(b'[') => {
                let at = self.cursor.advance();
                self.begin(Open::Index(at))
            }
            TokenKind::Symbol(symbol) => self.binary(symbol),
            TokenKind::Name | TokenKind::Number => Ok(Next::Done),
            TokenKind::TemplateStart | TokenKind::End => Ok(Next::Done),
        }
    }

    fn binary(&mut self, symbol: u8) -> Result<Next, Stop>
        ensures later { IsBehind self.old.cursor self.new.cursor }
    {
        let second = self.cursor.second();
        let behind = match second.kind {
            TokenKind::Symbol(behind) if second.is_joined(self.cursor.token(), behind) => behind,
            _ => 0,
        };
        let Some((operator, tokens)) = binary_operator(symbol, behind) else {
            return Ok(Next::Done);
        };
        self.check_mix(operator)?;
        self.reduce(precedence(operator))?;
        let at = self.cursor.advance();
        if tokens > 1 {
            self.cursor.advance();
        }
        self.begin(Open::Binary(operator, at))
    }

    fn comma(&mut self) -> Result<Next, Stop>
        ensures later { IsBehind self.old.cursor self.new.cursor }
    {
        self.reduce(0)?;
        let open = match self.open.last().copied() {
            Some(Open::Template(name, count)) => Open::Template(name, count.saturating_add(1)),
            Some(Open::Call(name, callee, count)) => {
                Open::Call(name, callee, count.saturating_add(1))
            }
            _ => return Ok(Next::Done),
        };
        let _ = self.open.pop();
        self.cursor.advance();
        self.begin(open)
    }

    fn end_template(&mut self) -> Result<Next, Stop>
        ensures later { IsBehind self.old.cursor self.new.cursor }
    {
        self.reduce(0)?;
        match self.open.last().copied() {
            Some(Open::Template(name, count)) => {
                self.close(Step::Template(name, count.saturating_add(1)))
            }
            _ => Ok(Next::Done),
        }
    }

    fn end_group(&mut self) -> Result<Next, Stop>
        ensures later { IsBehind self.old.cursor self.new.cursor }
    {
        self.reduce(0)?;
        match self.open.last().copied() {
            Some(Open::Group) => {
                let _ = self.open.pop();
                self.cursor.advance();
                Ok(Next::Operator)
            }
            Some(Open::Call(name, callee, count)) => {
                self.close(Step::Call(name, callee, count.saturating_add(1)))
            }
            _ => Ok(Next::Done),
        }
    }

    fn end_index(&mut self) -> Result<Next, Stop>
        ensures later { IsBehind self.old.cursor self.new.cursor }
    {
        self.reduce(0)?;
        match self.open.last().copied() {
            Some(Open::Index(at)) => self.close(Step::Index(at)),
            _ => Ok(Next::Done),
        }
    }

    // Closes the innermost bracket. Behind a template list a call of it may begin.
    fn close(&mut self, step: Step) -> Result<Next, Stop>
        ensures later { IsBehind self.old.cursor self.new.cursor }
    {
        let _ = self.open.pop();
        self.cursor.advance();
        let next = self.leave(step)?;
        match step {
            Step::Template(name, _) if self.cursor.take_symbol(b'(') => {
                self.begin(Open::Call(name, Callee::Answer, 0))
            }
            _ => Ok(next),
        }
    }

    // An operator beside which one that waits for its operand needs brackets.
    fn check_mix(&mut self, operator: BinaryOperator) -> Result<(), Stop>
        ensures steps { self.new.steps.items ≡ self.old.steps.items }
        ensures open { self.new.open.items ≡ self.old.open.items }
        ensures cursor { self.new.cursor ≡ self.old.cursor }
        ensures mixed { OnOk result (is_mixed_in (reverse self.old.open.items) operator ≡ true →
            self.new.refused.items ≡ self.old.refused.items ++ fault_of self.old.cursor self.old.cursor.at Reason.Mixed ∷ []) }
        ensures plain { OnOk result (is_mixed_in (reverse self.old.open.items) operator ≡ false → self.new.refused.items ≡ self.old.refused.items) }
    {
        if !is_mixed(self.open.as_slice(), operator) {
            return Ok(());
        }
        let at = self.cursor.position();
        push_fault(&mut self.refused, self.cursor.fault_at(at, Reason::Mixed))
    }

    // `--` and `&&` are one token each, and none before an operand.
    fn check_unary(&mut self, symbol: u8) -> Result<(), Stop>
        ensures steps { self.new.steps.items ≡ self.old.steps.items }
        ensures open { self.new.open.items ≡ self.old.open.items }
        ensures cursor { self.new.cursor ≡ self.old.cursor }
        ensures double { OnOk result (IsDouble self.old.open.items self.old.cursor symbol →
            self.new.refused.items ≡ self.old.refused.items ++ fault_of self.old.cursor self.old.cursor.at Reason.Double ∷ []) }
        ensures plain { OnOk result (¬ IsDouble self.old.open.items self.old.cursor symbol → self.new.refused.items ≡ self.old.refused.items) }
    {
        if !is_doubled(self.open.as_slice(), self.cursor, symbol) {
            return Ok(());
        }
        let at = self.cursor.position();
        push_fault(&mut self.refused, self.cursor.fault_at(at, Reason::Double))
    }

    fn begin(&mut self, open: Open) -> Result<Next, Stop>
        ensures later { IsBehind self.old.cursor self.new.cursor }
    {
        if self.open.len() >= DEPTH {
            let bracket = self.cursor.position().saturating_sub(1);
            return Err(Stop::At(bracket, Reason::TooDeep));
        }
        push_open(&mut self.open, open)?;
        Ok(Next::Operand)
    }

    fn leave(&mut self, step: Step) -> Result<Next, Stop>
        ensures open { self.new.open.items ≡ self.old.open.items }
        ensures later { IsBehind self.old.cursor self.new.cursor }
    {
        push_step(&mut self.steps, step)?;
        Ok(Next::Operator)
    }

    // The operators that wait and bind at least so tightly have their operands now.
    fn reduce(&mut self, level: u8) -> Result<(), Stop>
        ensures later { IsBehind self.old.cursor self.new.cursor }
    {
        for _ in 0..self.open.len() {
            let step = match self.open.last().copied() {
                Some(Open::Unary(operator, at)) => Step::Unary(operator, at),
                Some(Open::Binary(operator, at)) if precedence(operator) >= level => {
                    Step::Binary(operator, at)
                }
                _ => return Ok(()),
            };
            let _ = self.open.pop();
            push_step(&mut self.steps, step)?;
        }
        Ok(())
    }

    // At the end no bracket is open.
    fn finish(&mut self) -> Result<(), Stop>
        ensures later { IsBehind self.old.cursor self.new.cursor }
    {
        self.reduce(0)?;
        match self.open.last().copied() {
            None => Ok(()),
            Some(Open::Template(_, _)) => Err(self.cursor.expected(Expected::TemplateEnd)),
            Some(Open::Index(_)) => Err(self.cursor.expected(Expected::Symbol(']'))),
            Some(Open::Unary(_, _) | Open::Binary(_, _)) => Err(self.no_operand()),
            Some(Open::Group | Open::Call(_, _, _)) => {
                Err(self.cursor.expected(Expected::Symbol(')')))
            }
        }
    }
}

fn push_open(open: &mut Vec<Open>, item: Open) -> Result<(), Stop>
    ensures ok { OnOk result («open».new.items ≡ «open».old.items ++ item ∷ []) }
    ensures err { OnErr result («open».new.items ≡ «open».old.items) }
    ensures memory { IfErr result (λ stop. stop ≡ Stop.Memory) }
{
    match open.push(item) {
        Ok(()) => Ok(()),
        Err(_) => Err(Stop::Memory),
    }
}

fn push_fault(faults: &mut Vec<Fault>, fault: Fault) -> Result<(), Stop>
    ensures ok { OnOk result (faults.new.items ≡ faults.old.items ++ fault ∷ []) }
    ensures err { OnErr result (faults.new.items ≡ faults.old.items) }
    ensures memory { IfErr result (λ stop. stop ≡ Stop.Memory) }
{
    match faults.push(fault) {
        Ok(()) => Ok(()),
        Err(_) => Err(Stop::Memory),
    }
}

// Whether this character stands right behind the same one, an operator of its own that waits.
fn is_doubled(open: &[Open], cursor: Cursor<'_>, symbol: u8) -> bool
    ensures { IsTrue result ↔ IsDouble «open».now cursor.entry symbol }
{
    match last_operator(open) {
        Some(before) => may_double(symbol) && stands_before(cursor, before, symbol),
        None => false,
    }
}

fn may_double(symbol: u8) -> bool
    ensures { IsTrue result ↔ MayDouble symbol }
{
    matches!(symbol, b'-' | b'&')
}

// Whether the token of this number is the character, and the next one is it too, right behind.
fn stands_before(cursor: Cursor<'_>, before: usize, symbol: u8) -> bool
    ensures { IsTrue result ↔ StandsBefore cursor.entry before symbol }
{
    let token = cursor.token_at(before);
    before.saturating_add(1) == cursor.position()
        && token.is_symbol(symbol)
        && cursor.token().is_joined(token, symbol)
}

// The token of the operator that waits in the innermost place.
fn last_operator(open: &[Open]) -> Option<usize>
    ensures { result ≡ operator_in (slice_get «open».now (length «open».now - 1)) }
{
    match open.last().copied() {
        Some(last) => operator_token(last),
        None => None,
    }
}

fn operator_token(open: Open) -> Option<usize>
    ensures { result ≡ operator_in (Some «open») }
{
    match open {
        Open::Unary(_, token) => Some(token),
        Open::Binary(_, token) => Some(token),
        Open::Group | Open::Index(_) | Open::Template(_, _) | Open::Call(_, _, _) => None,
    }
}

// Whether one of the operators that wait in the innermost bracket needs brackets beside this one.
fn is_mixed(open: &[Open], operator: BinaryOperator) -> bool
    ensures { result ≡ is_mixed_in (reverse «open».now) operator }
{
    let mut rest = open;
    while let Some((item, before)) = rest.split_last() {
        match *item {
            Open::Unary(_, _) => {}
            Open::Binary(waiting, _) => {
                if !may_join(waiting, operator) {
                    return true;
                }
            }
            Open::Group | Open::Index(_) | Open::Template(_, _) | Open::Call(_, _, _) => {
                return false;
            }
        }
        rest = before;
    }
    false
}

fn push_step(steps: &mut Vec<Step>, step: Step) -> Result<(), Stop>
    ensures ok { OnOk result (steps.new.items ≡ steps.old.items ++ step ∷ []) }
    ensures err { OnErr result (steps.new.items ≡ steps.old.items) }
    ensures memory { IfErr result (λ stop. stop ≡ Stop.Memory) }
{
    match steps.push(step) {
        Ok(()) => Ok(()),
        Err(_) => Err(Stop::Memory),
    }
}

fn unary_operator(symbol: u8) -> Option<UnaryOperator>
    ensures text { IfSome result (λ op. unary_text op ≡ symbol ∷ []) }
    ensures each { (op : UnaryOperator) → unary_text op ≡ symbol ∷ [] → result ≡ Some op }
{
    match symbol {
        b'!' => Some(UnaryOperator::LogicalNegation),
        b'-' => Some(UnaryOperator::Negation),
        b'~' => Some(UnaryOperator::BitwiseComplement),
        b'&' => Some(UnaryOperator::AddressOf),
        b'*' => Some(UnaryOperator::Indirection),
        _ => None,
    }
}

/// The operator of a character and of the one right behind it, else that of the first alone, and
/// how many of the two it has.
fn binary_operator(symbol: u8, behind: u8) -> Option<(BinaryOperator, usize)>
    ensures text { IfSome result (λ p. binary_text p.0 ≡ take p.1 (symbol ∷ behind ∷ [])) }
    ensures longest { (op : BinaryOperator) → binary_text op ≡ symbol ∷ behind ∷ [] → result ≡ Some (op, 2) }
    ensures one { (op : BinaryOperator) → binary_text op ≡ symbol ∷ [] → IsSome result }
{
    match operator_of_two(symbol, behind) {
        Some(operator) => Some((operator, 2)),
        None => Some((operator_of_one(symbol)?, 1)),
    }
}

fn operator_of_two(symbol: u8, behind: u8) -> Option<BinaryOperator>
    ensures text { IfSome result (λ op. binary_text op ≡ symbol ∷ behind ∷ []) }
    ensures each { (op : BinaryOperator) → binary_text op ≡ symbol ∷ behind ∷ [] → result ≡ Some op }
{
    match (symbol, behind) {
        (b'|', b'|') => Some(BinaryOperator::ShortCircuitOr),
        (b'&', b'&') => Some(BinaryOperator::ShortCircuitAnd),
        (b'=', b'=') => Some(BinaryOperator::Equality),
        (b'!', b'=') => Some(BinaryOperator::Inequality),
        (b'<', b'=') => Some(BinaryOperator::LessThanEqual),
        (b'>', b'=') => Some(BinaryOperator::GreaterThanEqual),
        (b'<', b'<') => Some(BinaryOperator::ShiftLeft),
        (b'>', b'>') => Some(BinaryOperator::ShiftRight),
        _ => None,
    }
}

fn operator_of_one(symbol: u8) -> Option<BinaryOperator>
    ensures text { IfSome result (λ op. binary_text op ≡ symbol ∷ []) }
    ensures each { (op : BinaryOperator) → binary_text op ≡ symbol ∷ [] → result ≡ Some op }
{
    match symbol {
        b'+' => Some(BinaryOperator::Addition),
        b'-' => Some(BinaryOperator::Subtraction),
        b'*' => Some(BinaryOperator::Multiplication),
        b'/' => Some(BinaryOperator::Division),
        b'%' => Some(BinaryOperator::Remainder),
        b'<' => Some(BinaryOperator::LessThan),
        b'>' => Some(BinaryOperator::GreaterThan),
        b'|' => Some(BinaryOperator::BitwiseOr),
        b'&' => Some(BinaryOperator::BitwiseAnd),
        b'^' => Some(BinaryOperator::BitwiseXor),
        _ => None,
    }
}

/// How tightly an operator binds; those of one level are taken from the left.
fn precedence(operator: BinaryOperator) -> u8
    ensures { result ≡ precedence_of operator }
{
    match operator {
        BinaryOperator::Multiplication | BinaryOperator::Division | BinaryOperator::Remainder => 9,
        BinaryOperator::Addition | BinaryOperator::Subtraction => 8,
        BinaryOperator::ShiftLeft | BinaryOperator::ShiftRight => 7,
        BinaryOperator::LessThan | BinaryOperator::LessThanEqual => 6,
        BinaryOperator::GreaterThan | BinaryOperator::GreaterThanEqual => 6,
        BinaryOperator::Equality | BinaryOperator::Inequality => 6,
        BinaryOperator::BitwiseAnd => 5,
        BinaryOperator::BitwiseXor => 4,
        BinaryOperator::BitwiseOr => 3,
        BinaryOperator::ShortCircuitAnd => 2,
        BinaryOperator::ShortCircuitOr => 1,
    }
}
