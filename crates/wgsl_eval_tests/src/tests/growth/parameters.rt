//! What functions take abstract integers as, by WGSL's section on each of them.

use crate::tests::answers::{made, made_all};
use std::alloc::Global;
use std::process::Abort;
use wgsl_functions::{Builtin, Dialect, Unfit, bitcast, bitcast_argument};
use wgsl_rules::{ShaderStage, Type};
use wgsl_samples::operands::{Sample, i, n, n2, u};
use wgsl_samples::refusals::text_of;
use wgsl_scalar::LiteralInstance::AbstractInt;
use wgsl_values::Instance;

fn n4(a: i64, b: i64, c: i64, d: i64) -> Sample {
    Sample::Four([
        AbstractInt(a),
        AbstractInt(b),
        AbstractInt(c),
        AbstractInt(d),
    ])
}

/// `2147483648 is no i32`.
fn text_of_unfit(rt: &impl Abort, alloc: Global, unfit: &Unfit) -> String {
    again!(rt; format!(in alloc; "{} is no {}", unfit.value, unfit.ty))
}

/// The text of what the function answers of the values as it takes them.
fn called(
    rt: &impl Abort,
    alloc: Global,
    dialect: Dialect,
    function: Builtin,
    samples: &[Sample],
) -> String {
    let values = made_all(rt, alloc, samples);
    let taken = match function.arguments(alloc, dialect, values) {
        Ok(taken) => taken,
        Err(_) => {
            let values = made_all(rt, alloc, samples);
            function
                .arguments(alloc, dialect, values)
                .expect(rt, "memory")
        }
    };
    match taken {
        Ok(values) => {
            let answer = answered!(function.answer(alloc, ShaderStage::Const, &values));
            again!(rt; text_of(alloc, &answer))
        }
        Err(unfit) => text_of_unfit(rt, alloc, &unfit),
    }
}

fn assert_called(
    rt: &impl Abort,
    alloc: Global,
    dialect: Dialect,
    name: &str,
    samples: &[Sample],
    wanted: &str,
) {
    let function = Builtin::named(name).expect(rt, "a function");
    let text = called(rt, alloc, dialect, function, samples);
    assert_eq!(rt; text.as_str(), wanted, "{name}");
}

#[test]
fn bit_counts_take_an_i32(rt: HostRuntime) {
    let alloc = rt.alloc();
    let rows: [(&str, Sample, &str); 12] = [
        ("countLeadingZeros", n(63), "26i"),
        ("countLeadingZeros", u(63), "26u"),
        ("countOneBits", n(-1), "32i"),
        ("countOneBits", n(2147483647), "31i"),
        ("countOneBits", n(2147483648), "2147483648 is no i32"),
        ("countOneBits", n2(7, -2), "vec2(3i, 31i)"),
        (
            "countOneBits",
            n2(1, -2147483649),
            "vec2(1, -2147483649) is no vec2<i32>",
        ),
        ("countTrailingZeros", n(0), "32i"),
        ("firstTrailingBit", n(64), "6i"),
        ("firstLeadingBit", n(-1), "-1i"),
        ("firstLeadingBit", n2(1, 255), "vec2(0i, 7i)"),
        ("reverseBits", n(1), "-2147483648i"),
    ];
    for (name, sample, wanted) in rows {
        assert_called(&rt, alloc, Dialect::Wgsl, name, &[sample], wanted);
    }
}

#[test]
fn packing_takes_an_i32_or_a_u32(rt: HostRuntime) {
    let alloc = rt.alloc();
    let rows: [(&str, Sample, &str); 9] = [
        ("pack4xU8", n4(1, 2, 3, 4), "67305985u"),
        (
            "pack4xU8",
            n4(1, 2, 3, -4),
            "vec4(1, 2, 3, -4) is no vec4<u32>",
        ),
        ("pack4xI8", n4(1, 2, 3, -1), "4278387201u"),
        (
            "pack4xI8",
            n4(1, 2, 3, 2147483648),
            "vec4(1, 2, 3, 2147483648) is no vec4<i32>",
        ),
        ("pack4xI8Clamp", n4(1, 2, 3, 400), "2130903553u"),
        ("pack4xU8Clamp", n4(1, 2, 3, 400), "4278387201u"),
        ("unpack4xI8", n(67305985), "vec4(1i, 2i, 3i, 4i)"),
        ("unpack4xU8", n(4294967295), "vec4(255u, 255u, 255u, 255u)"),
        ("unpack4xU8", n(-1), "-1 is no u32"),
    ];
    for (name, sample, wanted) in rows {
        assert_called(&rt, alloc, Dialect::Wgsl, name, &[sample], wanted);
    }
}

#[test]
fn functions_of_more_values_take_each_by_itself(rt: HostRuntime) {
    let alloc = rt.alloc();
    let rows: [(&str, &[Sample], &str); 12] = [
        ("dot4U8Packed", &[n(16909060), n(1)], "4u"),
        (
            "dot4U8Packed",
            &[u(16909060), n(4294967296)],
            "4294967296 is no u32",
        ),
        ("dot4I8Packed", &[n(255), n(2)], "-2i"),
        ("dot4I8Packed", &[n(255), n(-2)], "-2 is no u32"),
        ("extractBits", &[n(255), n(4), n(4)], "-1i"),
        ("extractBits", &[u(255), n(4), n(4)], "15u"),
        ("extractBits", &[n(255), n(4), n(-1)], "-1 is no u32"),
        ("insertBits", &[n(0), n(3), n(4), n(2)], "48i"),
        ("insertBits", &[u(1), n(2), n(4), n(2)], "33u"),
        (
            "insertBits",
            &[n(4294967295), u(0), n(0), n(4)],
            "4294967280u",
        ),
        (
            "insertBits",
            &[n(0), i(1), n(0), n(4294967296)],
            "4294967296 is no u32",
        ),
        (
            "insertBits",
            &[n(4294967295), n(0), n(0), n(4)],
            "4294967295 is no i32",
        ),
    ];
    for (name, samples, wanted) in rows {
        assert_called(&rt, alloc, Dialect::Wgsl, name, samples, wanted);
    }
}

#[test]
fn other_functions_and_the_crate_take_them_as_they_are(rt: HostRuntime) {
    let alloc = rt.alloc();
    let last = [n(-4294967295)];
    assert_called(&rt, alloc, Dialect::Wgsl, "abs", &last, "4294967295");
    assert_called(&rt, alloc, Dialect::Crate, "countOneBits", &[n(-1)], "64");
    let numbers = [n(255), n(2)];
    assert_called(&rt, alloc, Dialect::Crate, "dot4I8Packed", &numbers, "-2i");
}

/// The bits of the value, as `bitcast` takes it, in another type, or that it is none.
fn cast(rt: &impl Abort, alloc: Global, ty: &Type, taken: Result<Instance, Unfit>) -> String {
    match taken {
        Ok(value) => {
            let answer = answered!(bitcast(alloc, ty, &value));
            again!(rt; text_of(alloc, &answer))
        }
        Err(unfit) => text_of_unfit(rt, alloc, &unfit),
    }
}

#[test]
fn bits_of_abstract_integers(rt: HostRuntime) {
    let alloc = rt.alloc();
    let rows: [(Dialect, Type, Sample, &str); 6] = [
        (Dialect::Wgsl, Type::U32, n(-1), "4294967295u"),
        (
            Dialect::Wgsl,
            Type::U32,
            n(4294967295),
            "4294967295 is no i32",
        ),
        (
            Dialect::Wgsl,
            Type::I32,
            n(4294967295),
            "4294967295 is no i32",
        ),
        (Dialect::Wgsl, Type::I32, u(4294967295), "-1i"),
        (Dialect::Wgsl, Type::I32, n(7), "7i"),
        (Dialect::Crate, Type::U32, n(4294967295), "4294967295u"),
    ];
    for (row, (dialect, ty, sample, wanted)) in rows.into_iter().enumerate() {
        let taken = match bitcast_argument(alloc, dialect, made(&rt, alloc, sample)) {
            Ok(taken) => taken,
            Err(_) => {
                let value = made(&rt, alloc, sample);
                bitcast_argument(alloc, dialect, value).expect(&rt, "memory")
            }
        };
        let text = cast(&rt, alloc, &ty, taken);
        assert_eq!(&rt; text.as_str(), wanted, "row {row}");
        drop(ty);
    }
}
