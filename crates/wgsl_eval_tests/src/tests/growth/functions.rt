//! Builtin functions that a source names.

use crate::tests::answers::{assert_answer, made, made_all, vec2};
use std::process::Abort;
use wgsl_functions::{Builtin, OfOne, OfThree, OfTwo, bitcast, insert_bits};
use wgsl_rules::{ShaderStage, Type};
use wgsl_samples::operands::{Sample, b2, i, i2, i4, u, u2, u4};

#[test]
fn functions_of_one_value(rt: HostRuntime) {
    let alloc = rt.alloc();
    let rows: [(OfOne, Sample, &str); 17] = [
        (OfOne::Abs, i2(1, -2), "vec2(1i, 2i)"),
        (OfOne::Sign, i2(7, -2), "vec2(1i, -1i)"),
        (OfOne::CountLeadingZeros, u2(1, 2), "vec2(31u, 30u)"),
        (OfOne::CountOneBits, u2(1, 3), "vec2(1u, 2u)"),
        (OfOne::CountTrailingZeros, u2(1, 4), "vec2(0u, 2u)"),
        (OfOne::FirstLeadingBit, u2(1, 6), "vec2(0u, 2u)"),
        (OfOne::FirstTrailingBit, u2(1, 6), "vec2(0u, 1u)"),
        (
            OfOne::ReverseBits,
            u2(1, 2),
            "vec2(2147483648u, 1073741824u)",
        ),
        (
            OfOne::Transpose,
            Sample::Matrix,
            "mat2x2(vec2(1u, 3u), vec2(2u, 4u))",
        ),
        (OfOne::Pack4xI8, i4(1, 2, 3, 4), "67305985u"),
        (OfOne::Pack4xU8, u4(1, 2, 3, 4), "67305985u"),
        (OfOne::Pack4xI8Clamp, i4(1, 2, 3, 400), "2130903553u"),
        (OfOne::Pack4xU8Clamp, u4(1, 2, 3, 400), "4278387201u"),
        (OfOne::Unpack4xI8, u(67305985), "vec4(1i, 2i, 3i, 4i)"),
        (OfOne::Unpack4xU8, u(67305985), "vec4(1u, 2u, 3u, 4u)"),
        (OfOne::All, b2(true, false), "false"),
        (OfOne::Any, b2(true, false), "true"),
    ];
    for (row, (function, operand, wanted)) in rows.into_iter().enumerate() {
        let operand = made(&rt, alloc, operand);
        let answer = answered!(function.answer(alloc, &operand));
        assert_answer(&rt, alloc, row, answer, wanted);
        drop(operand);
    }
}

#[test]
fn functions_of_more_values(rt: HostRuntime) {
    let alloc = rt.alloc();
    let rows: [(Builtin, [Sample; 4], usize, &str); 9] = [
        (
            Builtin::One(OfOne::Abs),
            [i2(1, -2), u(0), u(0), u(0)],
            1,
            "vec2(1i, 2i)",
        ),
        (
            Builtin::Two(OfTwo::Min),
            [i2(1, 4), i2(3, 2), u(0), u(0)],
            2,
            "vec2(1i, 2i)",
        ),
        (
            Builtin::Two(OfTwo::Max),
            [i2(1, 4), i2(3, 2), u(0), u(0)],
            2,
            "vec2(3i, 4i)",
        ),
        (
            Builtin::Two(OfTwo::Dot),
            [i2(3, 4), i2(5, 6), u(0), u(0)],
            2,
            "39i",
        ),
        (
            Builtin::Two(OfTwo::Dot4U8Packed),
            [u(16909060), u(1), u(0), u(0)],
            2,
            "4u",
        ),
        (
            Builtin::Two(OfTwo::Dot4I8Packed),
            [u(16909060), u(255), u(0), u(0)],
            2,
            "-4i",
        ),
        (
            Builtin::Three(OfThree::Clamp),
            [i2(1, 9), i2(2, 2), i2(5, 5), u(0)],
            3,
            "vec2(2i, 5i)",
        ),
        (
            Builtin::Three(OfThree::Select),
            [i2(1, 9), i2(2, 2), b2(true, false), u(0)],
            3,
            "vec2(2i, 9i)",
        ),
        (
            Builtin::InsertBits,
            [u2(0, 255), u2(3, 0), u(4), u(2)],
            4,
            "vec2(48u, 207u)",
        ),
    ];
    for (row, (function, operands, count, wanted)) in rows.into_iter().enumerate() {
        let operands = made_all(&rt, alloc, operands.get(..count).unwrap_or(&[]));
        let answer = answered!(function.answer(alloc, ShaderStage::Const, &operands));
        assert_answer(&rt, alloc, row, answer, wanted);
        drop(operands);
    }
}

#[test]
fn functions_that_are_called_with_each_value(rt: HostRuntime) {
    let alloc = rt.alloc();
    let (e, bits) = (made(&rt, alloc, u2(0, 255)), made(&rt, alloc, u2(3, 0)));
    let (offset, count) = (made(&rt, alloc, u(4)), made(&rt, alloc, u(2)));
    let answer = answered!(OfTwo::Max.answer(alloc, ShaderStage::Const, &e, &bits));
    assert_answer(&rt, alloc, 0, answer, "vec2(3u, 255u)");
    let answer = answered!(OfThree::ExtractBits.answer(alloc, &e, &offset, &count));
    assert_answer(&rt, alloc, 1, answer, "vec2(0u, 3u)");
    let answer = answered!(insert_bits(alloc, &e, &bits, &offset, &count));
    assert_answer(&rt, alloc, 2, answer, "vec2(48u, 207u)");
    drop((e, bits, offset, count));
}

#[test]
fn bits_in_another_type(rt: HostRuntime) {
    let alloc = rt.alloc();
    let value = made(&rt, alloc, i2(-1, 2));
    let ty = vec2(&rt, alloc, &Type::U32);
    let answer = answered!(bitcast(alloc, &ty, &value));
    assert_answer(&rt, alloc, 0, answer, "vec2(4294967295u, 2u)");
    let number = made(&rt, alloc, i(-1));
    let answer = answered!(bitcast(alloc, &Type::Bool, &number));
    assert_answer(&rt, alloc, 1, answer, "Builtin");
    drop((value, number, ty));
}
