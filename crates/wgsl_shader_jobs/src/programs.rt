//! The functions of the shader, as lists of instructions.

use crate::instruction::Function::{Dot, Max, Min};
use crate::instruction::Instruction;
use crate::instruction::Instruction::{
    ArrayLength, AtomicAdd, Clamp, Copy, Index, Literal, Member, Operator, PartPointer, Pointer,
    Read, Select, Write,
};
use wgsl_types::BinaryOperator::{
    Addition, BitwiseXor, LessThan, Multiplication, Remainder, ShiftRight, Subtraction,
};
use wgsl_types::LiteralInstance::{I32, U32};

/// The handles of the buffers.
pub(crate) const HASHES: usize = 0;

pub(crate) const SHIFTS: usize = 1;

pub(crate) const BINS: usize = 2;

pub(crate) const TOTAL: usize = 3;

pub(crate) const KEYS: usize = 4;

pub(crate) const SUMS: usize = 5;

pub(crate) const PARTICLES: usize = 6;

pub(crate) const BOUNDS: usize = 7;

// Handles that are made anew.
const PLACE: usize = 8;

const OTHER: usize = 9;

const PART: usize = 10;

const INNER: usize = 11;

/// The registers that each invocation finds: its number, and any number that names another element.
pub(crate) const INVOCATION: usize = 0;

pub(crate) const RANDOM: usize = 1;

// Registers that are filled once.
const ZERO: usize = 2;

const ONE: usize = 3;

const NOTHING: usize = 4;

const BITS: usize = 5;

const FACTOR: usize = 6;

const EIGHT: usize = 7;

const TOTAL_POINTER: usize = 8;

const BINS_POINTER: usize = 9;

const KEYS_LENGTH: usize = 10;

// Registers that are filled anew, but for the bounds.
const A: usize = 11;

const B: usize = 12;

const LOW: usize = 13;

const HIGH: usize = 14;

const OWN: usize = 15;

const FURTHER: usize = 16;

const C: usize = 17;

const AT: usize = 18;

const POINTER: usize = 19;

/// Fills the registers and buffers that all invocations read.
pub(crate) const SET_UP: [Instruction; 18] = [
    Literal(ZERO, U32(0)),
    Literal(ONE, U32(1)),
    Literal(NOTHING, I32(0)),
    Literal(BITS, U32(31)),
    Literal(FACTOR, U32(1_664_525)),
    Literal(EIGHT, U32(8)),
    Pointer(TOTAL_POINTER, TOTAL),
    Pointer(BINS_POINTER, BINS),
    Pointer(KEYS_LENGTH, KEYS),
    ArrayLength(KEYS_LENGTH, KEYS_LENGTH),
    Index(PLACE, BOUNDS, ZERO),
    Index(OTHER, BOUNDS, ONE),
    Read(A, PLACE),
    Read(B, OTHER),
    Instruction::Function(LOW, Min, A, B),
    Instruction::Function(HIGH, Max, A, B),
    Write(PLACE, LOW),
    Write(OTHER, HIGH),
];

/// Counts the elements of an invocation, hashes a vector by shifts that change with each, and leaves a number in `A`.
pub(crate) const HASH: [Instruction; 20] = [
    Operator(OWN, Remainder, INVOCATION, KEYS_LENGTH),
    Operator(FURTHER, Remainder, RANDOM, KEYS_LENGTH),
    Index(PLACE, HASHES, OWN),
    Read(A, PLACE),
    Operator(A, Multiplication, A, FACTOR),
    Operator(A, Addition, A, RANDOM),
    Read(B, SHIFTS),
    Operator(C, Remainder, B, BITS),
    Operator(C, ShiftRight, A, C),
    Operator(A, Addition, A, C),
    Write(PLACE, A),
    Operator(B, BitwiseXor, B, A),
    Write(SHIFTS, B),
    Index(PART, PLACE, ZERO),
    Index(INNER, PLACE, ONE),
    Read(B, PART),
    Read(C, INNER),
    Operator(B, Multiplication, B, C),
    Write(PART, B),
    Instruction::Function(A, Dot, A, A),
];

/// Counts the number in `A`, and leaves what was counted before in `B`.
pub(crate) const HISTOGRAM: [Instruction; 5] = [
    ArrayLength(B, BINS_POINTER),
    Operator(AT, Remainder, A, B),
    PartPointer(POINTER, BINS, AT),
    AtomicAdd(B, POINTER, ONE),
    AtomicAdd(B, TOTAL_POINTER, B),
];

/// Changes a key by `B`, puts it and another in their order, and adds the first to a sum.
pub(crate) const SORT: [Instruction; 14] = [
    Index(PLACE, KEYS, OWN),
    Index(OTHER, KEYS, FURTHER),
    Read(A, PLACE),
    Operator(A, BitwiseXor, A, B),
    Read(B, OTHER),
    Instruction::Function(C, Min, A, B),
    Instruction::Function(B, Max, A, B),
    Write(PLACE, C),
    Write(OTHER, B),
    Index(PART, SUMS, OWN),
    Index(INNER, SUMS, FURTHER),
    Read(A, INNER),
    Operator(A, Addition, A, C),
    Write(PART, A),
];

/// Moves a particle, which is drawn back to where it came from, and keeps where it has been.
pub(crate) const PARTICLE: [Instruction; 26] = [
    Index(PLACE, PARTICLES, OWN),
    Member(PART, PLACE, "position"),
    Member(INNER, PLACE, "velocity"),
    Read(A, PART),
    Read(B, INNER),
    Operator(A, Addition, A, B),
    Clamp(A, A, LOW, HIGH),
    Write(PART, A),
    Instruction::Function(C, Dot, A, B),
    Operator(B, Subtraction, B, A),
    Operator(B, Subtraction, B, C),
    Write(INNER, B),
    Member(INNER, PLACE, "state"),
    Member(OTHER, INNER, "energy"),
    Read(B, OTHER),
    Operator(B, Subtraction, B, C),
    Operator(AT, LessThan, B, NOTHING),
    Select(B, B, NOTHING, AT),
    Write(OTHER, B),
    Member(OTHER, INNER, "cells"),
    Operator(AT, Remainder, RANDOM, EIGHT),
    Index(OTHER, OTHER, AT),
    Write(OTHER, RANDOM),
    Index(OTHER, PARTICLES, FURTHER),
    Member(OTHER, OTHER, "state"),
    Copy(OTHER, INNER),
];
