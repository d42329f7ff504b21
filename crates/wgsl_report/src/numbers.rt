//! The numbers that a host goes by, by the expressions of attributes and of counts (WGSL: resource interface; override
//! declarations; workgroup_size).

use crate::attributes::{Argument, Role, arguments_in};
use crate::scope::free_name;
use std::alloc::{AllocError, Global};
use wgsl_eval::{
    Evaluated, Evaluation, Given, Item, ItemKind, Message, Need, Outcome, Settings, Severity,
    evaluate_with, resolve_with,
};
use wgsl_scalar::LiteralInstance;
use wgsl_source::{Literal, Reading};
use wgsl_values::Instance;

/// The most that a host has as the number of an override (WebGPU: pipeline-overridable constants).
const LARGEST_ID: u32 = 65_535;

/// Those of a declaration, where they are given and known.
#[derive(Clone, Copy)]
pub(crate) struct HostNumbers {
    pub(crate) group: Option<u32>,
    pub(crate) binding: Option<u32>,
    pub(crate) id: Option<u32>,
    pub(crate) workgroup_size: [Option<u32>; 3],
    pub(crate) count: Option<u32>,
}

/// Those of all declarations, and what is told of their expressions.
#[derive(Drop)]
pub(crate) struct Numbers {
    pub(crate) of: Vec<HostNumbers>,
    pub(crate) messages: Vec<Message>,
}

/// A module with a constant behind it for each of some arguments.
#[derive(Drop)]
struct Constants {
    text: String,
    /// What the names of these begin with, behind which stands a number from 0.
    name: String,
    /// Where the arguments begin in the text.
    places: Vec<usize>,
}

impl HostNumbers {
    const NONE: HostNumbers = HostNumbers {
        group: None,
        binding: None,
        id: None,
        workgroup_size: [None; 3],
        count: None,
    };

    fn set(&mut self, role: Role, number: u32) {
        match role {
            Role::Group => self.group = Some(number),
            Role::Binding => self.binding = Some(number),
            Role::Id => self.id = Some(number),
            Role::Count => self.count = Some(number),
            Role::Size(place) => {
                if let Some(size) = self.workgroup_size.get_mut(place) {
                    *size = Some(number);
                }
            }
        }
    }
}

/// The numbers of the declarations of a source. These items are what they were found to be, as far as that is known.
pub(crate) fn host_numbers(
    alloc: Global,
    text: &str,
    reading: &Reading<'_>,
    settings: Settings,
    given: &[Given<'_>],
    items: &[Item],
) -> Result<Numbers, AllocError> {
    let of = vec![in alloc; HostNumbers::NONE; reading.len()]?;
    let mut numbers = Numbers {
        of,
        messages: Vec::new(alloc),
    };
    match numbers.find_all(alloc, text, reading, settings, given, items) {
        Ok(()) => Ok(numbers),
        Err(error) => {
            drop(numbers);
            Err(error)
        }
    }
}

/// What is told of those of a source of which nothing else is known yet.
pub(crate) fn messages_of_numbers(
    alloc: Global,
    text: &str,
    reading: &Reading<'_>,
    settings: Settings,
    given: &[Given<'_>],
) -> Result<Vec<Message>, AllocError> {
    if arguments_in(alloc, reading)?.is_empty() {
        return Ok(Vec::new(alloc));
    }
    let items = resolve_with(alloc, reading, settings, given)?.items;
    Ok(host_numbers(alloc, text, reading, settings, given, items.as_slice())?.messages)
}

// Whether what is wrong with the argument is told of its variable, as far as that is looked at.
fn is_told(items: &[Item], argument: Argument) -> bool {
    let is_of_variable = matches!(argument.role, Role::Group | Role::Binding);
    match items.get(argument.declaration) {
        Some(item) => is_of_variable && matches!(item.kind, ItemKind::Faulty),
        None => false,
    }
}

// The number that an argument is by itself, or as a variable was found to have it.
fn known(reading: &Reading<'_>, items: &[Item], argument: Argument) -> Option<LiteralInstance> {
    if let Some(
        Item {
            kind: ItemKind::Variable(variable),
            ..
        },
    ) = items.get(argument.declaration)
    {
        let number = match argument.role {
            Role::Group => variable.group,
            Role::Binding => variable.binding,
            Role::Id | Role::Size(_) | Role::Count => None,
        };
        return Some(LiteralInstance::U32(number?));
    }
    literal_of(reading, argument)
}

// The number that is written there alone.
fn literal_of(reading: &Reading<'_>, argument: Argument) -> Option<LiteralInstance> {
    if argument.tokens != 1 {
        return None;
    }
    match reading.literal(argument.token) {
        Literal::Integer(literal) => Some(literal),
        _ => None,
    }
}

impl Numbers {
    fn find_all(
        &mut self,
        alloc: Global,
        text: &str,
        reading: &Reading<'_>,
        settings: Settings,
        given: &[Given<'_>],
        items: &[Item],
    ) -> Result<(), AllocError> {
        let arguments = arguments_in(alloc, reading)?;
        let open = self.take_known(alloc, reading, items, arguments.as_slice())?;
        if open.is_empty() {
            return Ok(());
        }
        self.evaluate(alloc, text, settings, given, open.as_slice())
    }

    // Takes the arguments whose numbers are known by themselves, and answers the others.
    fn take_known(
        &mut self,
        alloc: Global,
        reading: &Reading<'_>,
        items: &[Item],
        arguments: &[Argument],
    ) -> Result<Vec<Argument>, AllocError> {
        let mut open = Vec::new(alloc);
        for argument in arguments {
            if is_told(items, *argument) {
                self.take_sound(reading, *argument);
                continue;
            }
            match known(reading, items, *argument) {
                Some(literal) => self.take(alloc, *argument, literal)?,
                None => open.push(*argument)?,
            }
        }
        Ok(open)
    }

    // Takes the number that an argument is, or tells that it is none.
    fn take(
        &mut self,
        alloc: Global,
        argument: Argument,
        literal: LiteralInstance,
    ) -> Result<(), AllocError> {
        match number_for(argument.role, literal) {
            Ok(number) => {
                if let Some(of) = self.of.get_mut(argument.declaration) {
                    of.set(argument.role, number);
                }
                Ok(())
            }
            Err(text) => self.tell(alloc, argument, text),
        }
    }

    // Takes the number that is written there, if it is one.
    fn take_sound(&mut self, reading: &Reading<'_>, argument: Argument) {
        let Some(literal) = literal_of(reading, argument) else {
            return;
        };
        if let (Ok(number), Some(of)) = (
            number_for(argument.role, literal),
            self.of.get_mut(argument.declaration),
        ) {
            of.set(argument.role, number);
        }
    }

    fn tell(
        &mut self,
        alloc: Global,
        argument: Argument,
        text: &'static str,
    ) -> Result<(), AllocError> {
        self.messages.push(Message {
            start: argument.start,
            end: argument.end,
            severity: Severity::Fault,
            text: String::from_str(alloc, text)?,
        })?;
        Ok(())
    }

    // Evaluates arguments as constants behind all that the module declares.
    fn evaluate(
        &mut self,
        alloc: Global,
        source: &str,
        settings: Settings,
        given: &[Given<'_>],
        open: &[Argument],
    ) -> Result<(), AllocError> {
        let constants = constants_of(alloc, source, open)?;
        let taken = self.evaluate_all(alloc, &constants, settings, given, open);
        drop(constants);
        taken
    }

    fn evaluate_all(
        &mut self,
        alloc: Global,
        constants: &Constants,
        settings: Settings,
        given: &[Given<'_>],
        open: &[Argument],
    ) -> Result<(), AllocError> {
        let reading = Reading::of_module(alloc, constants.text.as_str())?;
        let evaluation = evaluate_with(alloc, &reading, settings, given);
        let taken = self.take_all(alloc, &reading, evaluation, constants, open);
        drop(reading);
        taken
    }

    fn take_all(
        &mut self,
        alloc: Global,
        reading: &Reading<'_>,
        evaluation: Result<Evaluation, AllocError>,
        constants: &Constants,
        open: &[Argument],
    ) -> Result<(), AllocError> {
        let Evaluation {
            values,
            messages,
            ..
        } = evaluation?;
        let taken = self.take_values(alloc, reading, values.as_slice(), constants, open);
        drop(values);
        taken?;
        self.add_messages(messages, open, constants.places.as_slice())
    }

    fn take_values(
        &mut self,
        alloc: Global,
        reading: &Reading<'_>,
        values: &[Evaluated],
        constants: &Constants,
        open: &[Argument],
    ) -> Result<(), AllocError> {
        for value in values {
            let number = index_in(reading.word(value.token), constants.name.as_str());
            if let Some(argument) = number.and_then(|i| open.get(i).copied()) {
                self.take_outcome(alloc, argument, &value.outcome)?;
            }
        }
        Ok(())
    }

    fn take_outcome(
        &mut self,
        alloc: Global,
        argument: Argument,
        outcome: &Outcome,
    ) -> Result<(), AllocError> {
        let may_be_open = matches!(argument.role, Role::Size(_) | Role::Count);
        match outcome {
            Outcome::Value(Instance::Literal(literal)) => self.take(alloc, argument, *literal),
            Outcome::Value(_) => self.tell(alloc, argument, no_integer(argument.role)),
            Outcome::Skipped(skip) => match skip.need {
                Need::Override if may_be_open => Ok(()),
                Need::Float => self.tell(alloc, argument, no_integer(argument.role)),
                _ => self.tell(alloc, argument, no_constant(argument.role)),
            },
            Outcome::Faulty => Ok(()),
        }
    }

    // The faults of the arguments, at their places in the source.
    fn add_messages(
        &mut self,
        messages: Vec<Message>,
        open: &[Argument],
        places: &[usize],
    ) -> Result<(), AllocError> {
        for message in messages {
            if let Some((start, end)) = extent_of(&message, open, places) {
                self.messages.push(Message {
                    start,
                    end,
                    severity: message.severity,
                    text: message.text,
                })?;
            }
        }
        Ok(())
    }
}

fn constants_of(alloc: Global, source: &str, open: &[Argument]) -> Result<Constants, AllocError> {
    let name = free_name(alloc, source)?;
    let text = String::from_str(alloc, source)?;
    let places = Vec::with_capacity(alloc, open.len())?;
    let mut constants = Constants { text, name, places };
    match constants.add_all(source, open) {
        Ok(()) => Ok(constants),
        Err(error) => {
            drop(constants);
            Err(error)
        }
    }
}

impl Constants {
    fn add_all(&mut self, source: &str, open: &[Argument]) -> Result<(), AllocError> {
        let Constants { text, name, places } = self;
        for (i, argument) in open.iter().enumerate() {
            write!(text, "\nconst {name}{i} = ")?;
            places.push(text.len())?;
            text.push_str(source.get(argument.start..argument.end).unwrap_or("0"))?;
            text.push_str("\n;")?;
        }
        Ok(())
    }
}

// What is told of an argument that is no integer.
fn no_integer(role: Role) -> &'static str {
    match role {
        Role::Count => "the count of an array is an integer",
        _ => "an attribute is an integer",
    }
}

// What is told of an argument that is not known to the module.
fn no_constant(role: Role) -> &'static str {
    match role {
        Role::Count => "the count of an array is a constant",
        _ => "an attribute is a constant",
    }
}

// Where a message stands in the source that is told of one of these arguments, which begin at these places.
fn extent_of(message: &Message, open: &[Argument], places: &[usize]) -> Option<(usize, usize)> {
    let behind = places.partition_point(|place| *place <= message.start);
    let i = behind.checked_sub(1)?;
    let (argument, place) = (open.get(i)?, places.get(i)?);
    let start = moved(message.start, *place, argument.start);
    let end = moved(message.end, *place, argument.start);
    (start < argument.end).then_some((start, end))
}

fn moved(at: usize, from: usize, to: usize) -> usize {
    at.saturating_sub(from).saturating_add(to)
}

// The number behind this front of a name.
fn index_in(word: &str, front: &str) -> Option<usize> {
    word.strip_prefix(front)?.parse().ok()
}

// The number that a literal is for an attribute, or why it is none.
fn number_for(role: Role, literal: LiteralInstance) -> Result<u32, &'static str> {
    let number = match literal {
        LiteralInstance::AbstractInt(number) => u32::try_from(number).ok(),
        LiteralInstance::I32(number) => u32::try_from(number).ok(),
        LiteralInstance::U32(number) => Some(number),
        _ => return Err(no_integer(role)),
    };
    match (role, number) {
        (Role::Size(_), Some(0) | None) => Err("the size of a workgroup is 1 or more"),
        (Role::Count, Some(0) | None) => Err("the count of an array is 1 or more"),
        (Role::Id, Some(number)) if number > LARGEST_ID => Err("an id is from 0 to 65535"),
        (_, None) => Err("an attribute is from 0 to 4294967295"),
        (_, Some(number)) => Ok(number),
    }
}
