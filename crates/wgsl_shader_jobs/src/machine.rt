//! A machine that runs the functions of shaders, instruction by instruction.

ghost use Rattle.std.specs.Prelude.{IfOk, IsTrue};
ghost use Rattle.wgsl_rules.specs.Values.{IsWellFormed};
ghost use Rattle.wgsl_store.specs.Memory.{IsKept};
ghost use Rattle.wgsl_types.specs.Atomics.{KeepsPointer};
ghost use Rattle.wgsl_values.specs.View.{reference_of, value_of};

use crate::digest::Digest;
use crate::instruction::{Function, Instruction};
use std::alloc::{AllocError, Global};
use wgsl_types::{
    AccessMode, AddressSpace, BinaryOperator, Error, Instance, LiteralInstance, Operators,
    PtrInstance, RefInstance, References, ShaderStage, Store, arrayLength, atomicAdd, clamp, dot,
    max, min, select,
};

/// The memory of a shader with its handles and registers. An instruction that names no handle or register, or a handle
/// that the memory does not keep, is refused with `NotRead`.
#[derive(Drop)]
pub(crate) struct Machine {
    alloc: Global,
    store: Store,
    handles: Vec<RefInstance>,
    registers: Vec<Instance>,
}

impl Machine {
    pub(crate) fn new(alloc: Global) -> Machine {
        Machine {
            alloc,
            store: Store::new(alloc),
            handles: Vec::new(alloc),
            registers: Vec::new(alloc),
        }
    }

    /// A next handle, of a buffer with the value.
    pub(crate) fn add_buffer(&mut self, value: Instance) -> Result<(), Error> {
        if !value.is_storable() || !self.store.holds_value(&value) {
            return Err(Error::NotRead);
        }
        let made: RefInstance = References::new(
            self.alloc,
            &mut self.store,
            value,
            AddressSpace::Storage,
            AccessMode::ReadWrite,
        )?;
        self.handles.push(made).map_err(AllocError::from)?;
        Ok(())
    }

    /// Adds the bytes of what a handle names.
    pub(crate) fn add_bytes(&self, handle: usize, digest: &mut Digest) -> Result<(), Error> {
        let reference = kept(&self.store, &self.handles, handle)?;
        if let Some(bytes) = self.store.read_bytes(reference)? {
            digest.add_bytes(bytes);
        }
        Ok(())
    }

    /// Takes the instructions in their order, up to one that is refused.
    pub(crate) fn run(&mut self, program: &[Instruction]) -> Result<(), Error> {
        for instruction in program {
            self.step(*instruction)?;
        }
        Ok(())
    }

    fn step(&mut self, instruction: Instruction) -> Result<(), Error> {
        match instruction {
            Instruction::Literal(to, literal) => self.set(to, Instance::from(literal)),
            Instruction::Index(to, of, by) => self.index(to, of, by),
            Instruction::Member(to, of, name) => self.member(to, of, name),
            Instruction::Read(to, from) => self.read(to, from),
            Instruction::Write(to, from) => self.write(to, from),
            Instruction::Copy(to, from) => self.copy(to, from),
            Instruction::Pointer(to, from) => self.point(to, from),
            Instruction::PartPointer(to, of, by) => self.point_to_part(to, of, by),
            Instruction::Operator(to, operator, a, b) => self.operate(to, operator, a, b),
            Instruction::Function(to, function, a, b) => self.call(to, function, a, b),
            Instruction::Clamp(to, a, low, high) => self.clamp(to, a, low, high),
            Instruction::Select(to, a, b, condition) => self.select(to, a, b, condition),
            Instruction::AtomicAdd(to, pointer, a) => self.atomic_add(to, pointer, a),
            Instruction::ArrayLength(to, pointer) => self.array_length(to, pointer),
        }
    }

    /// Puts the value in the register, or in a next one where there is none of this number.
    pub(crate) fn set(&mut self, register: usize, value: Instance) -> Result<(), Error> {
        match self.registers.get_mut(register) {
            Some(place) => *place = value,
            None => self.registers.push(value).map_err(AllocError::from)?,
        }
        Ok(())
    }

    // The same of a handle.
    fn set_handle(&mut self, handle: usize, reference: RefInstance) -> Result<(), Error> {
        match self.handles.get_mut(handle) {
            Some(place) => *place = reference,
            None => self.handles.push(reference).map_err(AllocError::from)?,
        }
        Ok(())
    }

    fn index(&mut self, to: usize, of: usize, by: usize) -> Result<(), Error> {
        let number = number(&self.registers, by)?;
        let reference = kept(&self.store, &self.handles, of)?;
        let made = reference.view_index(self.alloc, &self.store, number)?;
        self.set_handle(to, made)
    }

    fn member(&mut self, to: usize, of: usize, name: &str) -> Result<(), Error> {
        let reference = kept(&self.store, &self.handles, of)?;
        let name = String::from_str(self.alloc, name)?;
        let made = reference.view_member(self.alloc, &self.store, name)?;
        self.set_handle(to, made)
    }

    fn read(&mut self, to: usize, from: usize) -> Result<(), Error> {
        let reference = kept(&self.store, &self.handles, from)?;
        let value = reference.read(self.alloc, &self.store)?;
        self.set(to, value)
    }

    fn write(&mut self, to: usize, from: usize) -> Result<(), Error> {
        let reference = kept(&self.store, &self.handles, to)?;
        let value = value(&self.registers, from)?.clone(self.alloc)?;
        if !value.is_storable() || !self.store.holds_value(&value) {
            return Err(Error::NotRead);
        }
        reference.write(self.alloc, &mut self.store, value)
    }

    fn copy(&mut self, to: usize, from: usize) -> Result<(), Error> {
        let target = kept(&self.store, &self.handles, to)?;
        let source = kept(&self.store, &self.handles, from)?;
        source.copy_to(self.alloc, &mut self.store, target)
    }

    fn point(&mut self, to: usize, from: usize) -> Result<(), Error> {
        let reference = kept(&self.store, &self.handles, from)?;
        let pointer = PtrInstance::from(reference.clone(self.alloc)?);
        self.set(to, Instance::from(pointer))
    }

    fn point_to_part(&mut self, to: usize, of: usize, by: usize) -> Result<(), Error> {
        let number = number(&self.registers, by)?;
        let reference = kept(&self.store, &self.handles, of)?;
        let made = reference.view_index(self.alloc, &self.store, number)?;
        self.set(to, Instance::from(PtrInstance::from(made)))
    }

    fn operate(
        &mut self,
        to: usize,
        operator: BinaryOperator,
        a: usize,
        b: usize,
    ) -> Result<(), Error> {
        let a = value(&self.registers, a)?;
        let b = value(&self.registers, b)?;
        let answer = operated(self.alloc, operator, a, b)?;
        self.set(to, answer)
    }

    fn call(&mut self, to: usize, function: Function, a: usize, b: usize) -> Result<(), Error> {
        let a = value(&self.registers, a)?;
        let b = value(&self.registers, b)?;
        let answer = match function {
            Function::Min => min(self.alloc, a, b),
            Function::Max => max(self.alloc, a, b),
            Function::Dot => dot(self.alloc, a, b, ShaderStage::Exec),
        };
        self.set(to, answer?)
    }

    fn clamp(&mut self, to: usize, a: usize, low: usize, high: usize) -> Result<(), Error> {
        let a = value(&self.registers, a)?;
        let low = value(&self.registers, low)?;
        let high = value(&self.registers, high)?;
        let answer = clamp(self.alloc, a, low, high)?;
        self.set(to, answer)
    }

    fn select(&mut self, to: usize, a: usize, b: usize, condition: usize) -> Result<(), Error> {
        let a = value(&self.registers, a)?;
        let b = value(&self.registers, b)?;
        let condition = value(&self.registers, condition)?;
        let answer = select(self.alloc, a, b, condition)?;
        self.set(to, answer)
    }

    fn atomic_add(&mut self, to: usize, pointer: usize, a: usize) -> Result<(), Error> {
        let pointer = pointer_in(&self.store, &self.registers, pointer)?;
        let a = value(&self.registers, a)?;
        let old = atomicAdd(self.alloc, &mut self.store, pointer, a)?;
        self.set(to, old)
    }

    fn array_length(&mut self, to: usize, pointer: usize) -> Result<(), Error> {
        let pointer = pointer_in(&self.store, &self.registers, pointer)?;
        let length = arrayLength(self.alloc, &self.store, pointer)?;
        self.set(to, length)
    }
}

// The reference of the handle, where the store keeps it.
fn kept<'a>(
    store: &Store,
    handles: &'a [RefInstance],
    handle: usize,
) -> Result<&'a RefInstance, Error>
    ensures { IfOk result (λ r. IsKept store.now (reference_of r.now)) }
{
    match handles.get(handle) {
        Some(reference) if store.holds(reference) => Ok(reference),
        _ => Err(Error::NotRead),
    }
}

// The value of the register.
fn value(registers: &[Instance], register: usize) -> Result<&Instance, Error>
    ensures { IfOk result (λ v. IsWellFormed (value_of v.now)) }
{
    match registers.get(register) {
        Some(value) if value.is_well_formed() => Ok(value),
        _ => Err(Error::NotRead),
    }
}

// The number of the register.
fn number(registers: &[Instance], register: usize) -> Result<usize, Error> {
    match registers.get(register) {
        Some(Instance::Literal(LiteralInstance::U32(n))) => Ok(*n as usize),
        _ => Err(Error::NotRead),
    }
}

// The pointer of the register, to what the store keeps.
fn pointer_in<'a>(
    store: &Store,
    registers: &'a [Instance],
    register: usize,
) -> Result<&'a Instance, Error>
    ensures { IfOk result (λ v. KeepsPointer store.now (value_of v.now)) }
{
    match registers.get(register) {
        Some(value) if points(store, value) => Ok(value),
        _ => Err(Error::NotRead),
    }
}

// What the operator gives while a shader runs; those that no program has are refused.
fn operated(
    alloc: Global,
    operator: BinaryOperator,
    a: &Instance,
    b: &Instance,
) -> Result<Instance, Error>
    requires first { IsWellFormed (value_of a.now) }
    requires second { IsWellFormed (value_of b.now) }
{
    match operator {
        BinaryOperator::Addition => a.op_add(alloc, b, ShaderStage::Exec),
        BinaryOperator::Subtraction => a.op_sub(alloc, b, ShaderStage::Exec),
        BinaryOperator::Multiplication => a.op_mul(alloc, b, ShaderStage::Exec),
        BinaryOperator::Remainder => a.op_rem(alloc, b, ShaderStage::Exec),
        BinaryOperator::ShiftRight => a.op_shr(alloc, b, ShaderStage::Exec),
        BinaryOperator::BitwiseXor => a.op_bitxor(alloc, b),
        BinaryOperator::LessThan => a.op_lt(alloc, b),
        _ => Err(Error::NotRead),
    }
}

// Whether the value is a pointer to what the store keeps.
fn points(store: &Store, value: &Instance) -> bool
    ensures { IsTrue result → KeepsPointer store.now (value_of value.now) }
{
    match value {
        Instance::Ptr(pointer) => store.holds(pointer.ptr()),
        _ => false,
    }
}
