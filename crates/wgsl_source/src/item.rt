//! Reads what a module is made of, one item at a time (WGSL: declaration and scope; struct types; variable
//! and value declarations; attributes; directives).

ghost use Rattle.std.specs.Prelude.{IfOk};
ghost use Rattle.wgsl_source.specs.Declarations.{IsBehind, IsItem, IsNamed};

use crate::cursor::Stop;
use crate::declaration::{Attributes, Declaration, Kind, Member, Variable};
use crate::entry::EntryStage;
use crate::expression::{Expressions, Span};
use crate::fault::{Expected, Reason};
use crate::token::TokenKind;
use wgsl_rules::{AccessMode, AddressSpace};

/// What a module is made of.
pub(crate) enum Item {
    Declaration(Declaration),
    /// The condition of a `const_assert`.
    Assertion(Span),
    Directive,
    Semicolon,
}

/// What is declared, and the token that names it.
struct Named {
    name: usize,
    kind: Kind,
}

/// What the template list of a `var` says.
#[derive(Clone, Copy)]
struct Memory {
    space: Option<AddressSpace>,
    access: Option<AccessMode>,
    is_immediate: bool,
}

impl Memory {
    const NONE: Memory = Memory {
        space: None,
        access: None,
        is_immediate: false,
    };
}

impl<'a> Expressions<'a> {
    /// Reads what begins here. The members of a structure come behind those before.
    pub(crate) fn item(&mut self, members: &mut Vec<Member>) -> Result<Item, Stop>
        ensures { IfOk result (λ item. IsItem self.old.cursor self.new.cursor item) }
    {
        match self.cursor.word() {
            ";" => {
                self.cursor.advance();
                Ok(Item::Semicolon)
            }
            "enable" | "requires" | "diagnostic" => {
                self.cursor.pass_directive()?;
                Ok(Item::Directive)
            }
            "import" => Err(Stop::At(self.cursor.position(), Reason::Import)),
            _ => self.attributed(members),
        }
    }

    // Reads what may have attributes.
    fn attributed(&mut self, members: &mut Vec<Member>) -> Result<Item, Stop>
        ensures { IfOk result (λ item. IsItem self.old.cursor self.new.cursor item) }
    {
        let start = self.steps.len();
        let mut attributes = Attributes::NONE;
        if let Err(stop) = self.attributes(&mut attributes) {
            self.cursor.skip_to_declaration();
            return Err(stop);
        }
        if self.cursor.word() == "const_assert" {
            return Ok(Item::Assertion(self.assertion()?));
        }
        let Named { name, kind } = self.declared(members, &attributes)?;
        let steps = Span {
            token: name,
            start,
            end: self.steps.len(),
        };
        Ok(Item::Declaration(Declaration { name, kind, steps }))
    }

    // Reads the declaration behind attributes.
    fn declared(
        &mut self,
        members: &mut Vec<Member>,
        attributes: &Attributes,
    ) -> Result<Named, Stop>
        ensures { IfOk result (λ named. IsNamed self.old.cursor self.new.cursor named.name) }
    {
        match self.cursor.word() {
            "struct" => self.structure(members),
            "alias" => self.alias(),
            "const" => self.constant(),
            "override" => self.overridden(attributes.id),
            "var" => self.variable(attributes),
            "fn" => self.function(attributes),
            _ => Err(self.cursor.expected(Expected::Declaration)),
        }
    }
}

impl<'a> Expressions<'a> {
    // Adds those that stand here to the attributes.
    fn attributes(&mut self, attributes: &mut Attributes) -> Result<(), Stop>
        ensures later { IsBehind self.old.cursor self.new.cursor }
    {
        for _ in self.cursor.position()..self.cursor.len() {
            if !self.cursor.take_symbol(b'@') {
                break;
            }
            self.attribute(attributes)?;
        }
        Ok(())
    }

    // One that says nothing to a host is passed over.
    fn attribute(&mut self, attributes: &mut Attributes) -> Result<(), Stop>
        ensures later { IsBehind self.old.cursor self.new.cursor }
    {
        let name = self.cursor.expect_name()?;
        match self.cursor.text_at(name) {
            "align" => attributes.align = Some(self.argument_of(name, attributes.align)?),
            "size" => attributes.size = Some(self.argument_of(name, attributes.size)?),
            "group" => attributes.group = Some(self.argument_of(name, attributes.group)?),
            "binding" => attributes.binding = Some(self.argument_of(name, attributes.binding)?),
            "id" => attributes.id = Some(self.argument_of(name, attributes.id)?),
            "workgroup_size" => {
                attributes.workgroup_size = self.workgroup_size(name, attributes.workgroup_size)?;
            }
            "vertex" | "fragment" | "compute" => {
                attributes.stage = Some(self.stage(name, attributes.stage)?);
            }
            _ => {
                if self.cursor.token().is_symbol(b'(') {
                    let open_end = self.cursor.skip_counted_group();
                    self.check_closed(open_end)?;
                }
            }
        }
        Ok(())
    }

    // The stage that the attribute of this name gives, where none is given before.
    fn stage(&self, name: usize, before: Option<EntryStage>) -> Result<EntryStage, Stop> {
        let stage = match self.cursor.text_at(name) {
            "vertex" => EntryStage::Vertex,
            "fragment" => EntryStage::Fragment,
            _ => EntryStage::Compute,
        };
        match before {
            None => Ok(stage),
            Some(before) if before == stage => Err(Stop::At(name, Reason::DuplicateName)),
            Some(_) => Err(Stop::At(name, Reason::SecondStage)),
        }
    }

    // The argument of an attribute that stands once.
    fn argument_of(&mut self, name: usize, before: Option<Span>) -> Result<Span, Stop>
        ensures later { IsBehind self.old.cursor self.new.cursor }
    {
        if before.is_some() {
            return Err(Stop::At(name, Reason::DuplicateName));
        }
        self.argument()
    }

    // An expression in brackets.
    fn argument(&mut self) -> Result<Span, Stop>
        ensures later { IsBehind self.old.cursor self.new.cursor }
    {
        self.cursor.expect_symbol(b'(')?;
        let argument = self.expression()?;
        let _ = self.cursor.take_symbol(b',');
        self.cursor.expect_symbol(b')')?;
        Ok(argument)
    }

    // One to three expressions in brackets, of an attribute that stands once.
    fn workgroup_size(
        &mut self,
        name: usize,
        before: [Option<Span>; 3],
    ) -> Result<[Option<Span>; 3], Stop>
        ensures later { IsBehind self.old.cursor self.new.cursor }
    {
        if before[0].is_some() {
            return Err(Stop::At(name, Reason::DuplicateName));
        }
        self.cursor.expect_symbol(b'(')?;
        let x = self.expression()?;
        let y = self.further_argument()?;
        let z = self.further_argument()?;
        let _ = self.cursor.take_symbol(b',');
        self.cursor.expect_symbol(b')')?;
        Ok([Some(x), y, z])
    }

    // None where the brackets end, behind a comma or without one.
    fn further_argument(&mut self) -> Result<Option<Span>, Stop>
        ensures later { IsBehind self.old.cursor self.new.cursor }
    {
        if !self.cursor.token().is_symbol(b',') || self.cursor.second().is_symbol(b')') {
            return Ok(None);
        }
        self.cursor.advance();
        Ok(Some(self.expression()?))
    }

    fn structure(&mut self, members: &mut Vec<Member>) -> Result<Named, Stop>
        ensures { IfOk result (λ named. IsNamed self.old.cursor self.new.cursor named.name) }
    {
        self.cursor.advance();
        let name = self.cursor.expect_name()?;
        self.cursor.expect_symbol(b'{')?;
        let first = members.len();
        self.members(members)?;
        self.cursor.expect_symbol(b'}')?;
        let end = members.len();
        let kind = Kind::Struct { first, end };
        Ok(Named { name, kind })
    }

    // One or more.
    fn members(&mut self, members: &mut Vec<Member>) -> Result<(), Stop>
        ensures later { IsBehind self.old.cursor self.new.cursor }
    {
        self.member(members)?;
        for _ in self.cursor.position()..self.cursor.len() {
            if !self.cursor.take_symbol(b',') || self.cursor.token().is_symbol(b'}') {
                break;
            }
            self.member(members)?;
        }
        Ok(())
    }

    // Where a declaration begins in place of a member, the structure has no end.
    fn member(&mut self, members: &mut Vec<Member>) -> Result<(), Stop>
        ensures later { IsBehind self.old.cursor self.new.cursor }
    {
        let start = self.cursor;
        let refused = self.refused_len();
        let mut attributes = Attributes::NONE;
        self.attributes(&mut attributes)?;
        if self.cursor.begins_declaration() {
            self.go_back(start, refused);
            return Err(start.expected(Expected::Symbol('}')));
        }
        let name = self.cursor.expect_name()?;
        self.cursor.expect_symbol(b':')?;
        let ty = self.expression()?;
        let member = Member {
            name,
            ty,
            size: attributes.size,
            align: attributes.align,
        };
        match members.push(member) {
            Ok(()) => Ok(()),
            Err(_) => Err(Stop::Memory),
        }
    }

    fn alias(&mut self) -> Result<Named, Stop>
        ensures { IfOk result (λ named. IsNamed self.old.cursor self.new.cursor named.name) }
    {
        self.cursor.advance();
        let name = self.cursor.expect_name()?;
        self.cursor.expect_assignment()?;
        let ty = self.expression()?;
        self.cursor.expect_symbol(b';')?;
        let kind = Kind::Alias(ty);
        Ok(Named { name, kind })
    }

    fn constant(&mut self) -> Result<Named, Stop>
        ensures { IfOk result (λ named. IsNamed self.old.cursor self.new.cursor named.name) }
    {
        self.cursor.advance();
        let name = self.cursor.expect_name()?;
        let ty = self.given_type()?;
        self.cursor.expect_assignment()?;
        let value = self.expression()?;
        self.cursor.expect_symbol(b';')?;
        let kind = Kind::Constant(ty, value);
        Ok(Named { name, kind })
    }

    fn overridden(&mut self, id: Option<Span>) -> Result<Named, Stop>
        ensures { IfOk result (λ named. IsNamed self.old.cursor self.new.cursor named.name) }
    {
        self.cursor.advance();
        let name = self.cursor.expect_name()?;
        let ty = self.given_type()?;
        let value = self.given_value()?;
        self.cursor.expect_symbol(b';')?;
        let kind = Kind::Override(ty, value, id);
        Ok(Named { name, kind })
    }

    fn assertion(&mut self) -> Result<Span, Stop> {
        self.cursor.advance();
        let condition = self.expression()?;
        self.cursor.expect_symbol(b';')?;
        Ok(condition)
    }

    fn variable(&mut self, attributes: &Attributes) -> Result<Named, Stop>
        ensures { IfOk result (λ named. IsNamed self.old.cursor self.new.cursor named.name) }
    {
        self.cursor.advance();
        let memory = self.memory()?;
        let name = self.cursor.expect_name()?;
        let ty = self.given_type()?;
        self.given_value()?;
        self.cursor.expect_symbol(b';')?;
        let variable = Variable {
            space: memory.space,
            access: memory.access,
            is_immediate: memory.is_immediate,
            ty,
            group: attributes.group,
            binding: attributes.binding,
        };
        let kind = Kind::Variable(variable);
        Ok(Named { name, kind })
    }

    // A function, whose parameters and body are passed over.
    fn function(&mut self, attributes: &Attributes) -> Result<Named, Stop>
        ensures { IfOk result (λ named. IsNamed self.old.cursor self.new.cursor named.name) }
    {
        self.cursor.advance();
        let name = self.cursor.expect_name()?;
        self.skip_declaration()?;
        let kind = Kind::Function(attributes.entry());
        Ok(Named { name, kind })
    }

    fn given_type(&mut self) -> Result<Option<Span>, Stop>
        ensures later { IsBehind self.old.cursor self.new.cursor }
    {
        if !self.cursor.take_symbol(b':') {
            return Ok(None);
        }
        Ok(Some(self.expression()?))
    }

    fn given_value(&mut self) -> Result<Option<Span>, Stop>
        ensures later { IsBehind self.old.cursor self.new.cursor }
    {
        if !self.cursor.token().is_symbol(b'=') {
            return Ok(None);
        }
        self.cursor.expect_assignment()?;
        Ok(Some(self.expression()?))
    }

    // The address space and the access mode in the template list of a `var`.
    fn memory(&mut self) -> Result<Memory, Stop>
        ensures later { IsBehind self.old.cursor self.new.cursor }
    {
        if self.cursor.token().kind != TokenKind::TemplateStart {
            return Ok(Memory::NONE);
        }
        self.cursor.advance();
        let space = self.space()?;
        let access = if self.cursor.take_symbol(b',') {
            self.access()?
        } else {
            None
        };
        if self.cursor.token().kind != TokenKind::TemplateEnd {
            return Err(self.cursor.expected(Expected::TemplateEnd));
        }
        self.cursor.advance();
        Ok(Memory {
            space,
            access,
            is_immediate: space.is_none(),
        })
    }

    // None where it is that of immediate data.
    fn space(&mut self) -> Result<Option<AddressSpace>, Stop>
        ensures later { IsBehind self.old.cursor self.new.cursor }
    {
        let space = match self.cursor.word() {
            "function" => Some(AddressSpace::Function),
            "private" => Some(AddressSpace::Private),
            "workgroup" => Some(AddressSpace::Workgroup),
            "uniform" => Some(AddressSpace::Uniform),
            "storage" => Some(AddressSpace::Storage),
            "immediate" | "push_constant" => None,
            _ => return Err(self.cursor.expected(Expected::AddressSpace)),
        };
        self.cursor.advance();
        Ok(space)
    }

    // None where the list ends behind a comma.
    fn access(&mut self) -> Result<Option<AccessMode>, Stop>
        ensures later { IsBehind self.old.cursor self.new.cursor }
    {
        let access = match self.cursor.word() {
            "read" => AccessMode::Read,
            "write" => AccessMode::Write,
            "read_write" => AccessMode::ReadWrite,
            _ if self.cursor.token().kind == TokenKind::TemplateEnd => return Ok(None),
            _ => return Err(self.cursor.expected(Expected::AccessMode)),
        };
        self.cursor.advance();
        let _ = self.cursor.take_symbol(b',');
        Ok(Some(access))
    }

    // Passes over what says nothing of types.
    fn skip_declaration(&mut self) -> Result<(), Stop>
        ensures later { IsBehind self.old.cursor self.new.cursor }
    {
        let open_end = self.cursor.skip_declaration();
        self.check_closed(open_end)
    }

    // All brackets are closed, or this is the end that is wanting.
    fn check_closed(&mut self, open_end: Option<char>) -> Result<(), Stop>
        ensures later { IsBehind self.old.cursor self.new.cursor }
    {
        match open_end {
            Some(end) => Err(self.cursor.expected(Expected::Symbol(end))),
            None => Ok(()),
        }
    }
}
