//! Values that are made and converted.

use crate::tests::answers::{assert_value, made, made_all, pair, vec2};
use std::process::Abort;
use wgsl_apply::{automatic, concrete, has_rank, in_common, zero};
use wgsl_rules::Type;
use wgsl_samples::operands::{Sample, n, n2, u, u2};
use wgsl_samples::types;

#[test]
fn zero_values(rt: HostRuntime) {
    let alloc = rt.alloc();
    let structure = pair(&rt, alloc);
    let list = again!(&rt; types::array(alloc, pair(&rt, alloc), Some(2)));
    let matrix = again!(&rt; types::matrix(alloc, Type::U32));
    let pairs = "array(Pair(0u, vec3(0u, 0u, 0u)), Pair(0u, vec3(0u, 0u, 0u)))";
    let wanted = [
        "Pair(0u, vec3(0u, 0u, 0u))",
        pairs,
        "mat2x3(vec3(0u, 0u, 0u), vec3(0u, 0u, 0u))",
        "false",
        "",
    ];
    let all = [&structure, &list, &matrix, &Type::Bool, &Type::F32];
    for (row, (ty, wanted)) in all.into_iter().zip(wanted).enumerate() {
        let value = again!(&rt; zero(alloc, ty));
        assert_value(&rt, alloc, row, value, wanted);
    }
    drop((structure, list, matrix));
}

#[test]
fn values_in_types(rt: HostRuntime) {
    let alloc = rt.alloc();
    let (value, own) = (made(&rt, alloc, n2(1, 2)), made(&rt, alloc, u2(1, 2)));
    let ty = vec2(&rt, alloc, &Type::U32);
    let other = vec2(&rt, alloc, &Type::I32);
    let answer = again!(&rt; automatic(alloc, &value, &ty));
    assert_value(&rt, alloc, 0, answer, "vec2(1u, 2u)");
    let answer = again!(&rt; automatic(alloc, &own, &other));
    assert_value(&rt, alloc, 1, answer, "");
    let answer = again!(&rt; concrete(alloc, &value));
    assert_value(&rt, alloc, 2, answer, "vec2(1i, 2i)");
    let answers = (
        again!(&rt; has_rank(alloc, &value, &ty)),
        again!(&rt; has_rank(alloc, &own, &other)),
    );
    assert_eq!(rt; answers, (true, false));
    drop((value, own, ty, other));
}

#[test]
fn values_in_their_common_type(rt: HostRuntime) {
    let alloc = rt.alloc();
    let values = made_all(&rt, alloc, &[n(1), u(2), n(3)]);
    let mut common = again!(&rt; in_common(alloc, &values)).expect(&rt, "they have one");
    assert_eq!(rt; common.len(), 3);
    assert_value(&rt, alloc, 0, common.pop(), "3u");
    assert_value(&rt, alloc, 1, common.pop(), "2u");
    assert_value(&rt, alloc, 2, common.pop(), "1u");
    let values = made_all(&rt, alloc, &[Sample::Matrix, u(2)]);
    assert!(rt; again!(&rt; in_common(alloc, &values)).is_none());
    drop(values);
}
