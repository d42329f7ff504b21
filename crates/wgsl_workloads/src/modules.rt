//! Modules of shaders are laid out, as at each key that is pressed.

use crate::digest::Digest;
use crate::random::Random;
use std::alloc::{AllocError, Global};
use wgsl_eval::{Declarations, Item, ItemKind, Variable, resolve};
use wgsl_source::Reading;
use wgsl_types::{AccessMode, AddressSpace, Error, StructType, Type, UniformRule};

/// What most of a module is: the lines of functions, and comments.
const LINES: [&str; 18] = [
    "    let position = vec3<f32>(in.position.xy * scale.xy, 0.5);\n",
    "    // The light comes from above, and is cut where the surface turns away from it.\n",
    "    var color = textureSample(albedo, linear_sampler, in.uv * 2.0 + offset);\n",
    "    if (dot(normal, light.direction) <= 0.0 || distance > light.range) { discard; }\n",
    "    for (var i = 0u; i < arrayLength(&lights.items) && i < 64u; i++) {\n        sum += lights.items[i].color.rgb * attenuation(distance, lights.items[i].range);\n    }\n",
    "    let index = (cell.z * GRID.y + cell.y) * GRID.x + cell.x;\n",
    "    let hashed = (index ^ (index >> 16u)) * 0x45d9f3bu;\n",
    "    /* Shadows are looked up four times,\n       and mixed. */\n",
    "    workgroupBarrier();\n",
    "    let old = atomicAdd(&histogram.bins[bin], 1u);\n",
    "    switch (kind) { case 0u, 1u: { return vec4<f32>(1.0); } default: { break; } }\n",
    "    out.clip_position = camera.view_projection * vec4<f32>(world_position, 1.0);\n",
    "    let roughness = clamp(material.roughness * sample.g, 0.045, 1.0);\n",
    "    color = mix(color, fog.color, smoothstep(fog.start, fog.end, length(view_vector)));\n",
    "    let tangent_space = mat3x3<f32>(in.tangent, in.bitangent, in.normal);\n",
    "    // TODO: take the derivative by hand\n",
    "    while (depth < max_depth) { depth = depth + step_size(depth, bias); }\n",
    "    return vec4<f32>(pow(color.rgb, vec3<f32>(1.0 / 2.2)), color.a);\n",
];

/// The types that members have.
const TYPES: [&str; 12] = [
    "f32",
    "u32",
    "vec3<f32>",
    "vec4<f32>",
    "mat4x4<f32>",
    "vec2<u32>",
    "array<vec4<f32>, COUNT>",
    "vec3<i32>",
    "atomic<u32>",
    "array<u32, max(4, COUNT) * 2>",
    "mat3x3<f32>",
    "i32",
];

fn picked(texts: &[&'static str], random: &mut Random) -> &'static str {
    match texts.get(random.index(texts.len())) {
        Some(text) => text,
        None => "",
    }
}

/// How many modules there are to a bundle.
const MODULES: u32 = 320;

/// So many modules of 20 to 300 kB, and bundles of 3 MB.
pub(crate) fn run(
    alloc: Global,
    random: &mut Random,
    scale: u32,
    digest: &mut Digest,
) -> Result<(), Error> {
    for number in 0..scale {
        let size = 20_000usize.saturating_add((number % 15) as usize * 20_000);
        let text = module(alloc, random, number, size)?;
        lay_out(alloc, text.as_str(), digest)?;
    }
    for bundle in 0..scale.div_ceil(MODULES) {
        let size = 10_000usize.saturating_mul(scale.min(MODULES) as usize);
        let text = module(alloc, random, scale.saturating_add(bundle), size)?;
        lay_out(alloc, text.as_str(), digest)?;
    }
    Ok(())
}

// The module of the number, of so many bytes or a few more. Its structures have names of their own, and each has a
// variable at most.
fn module(
    alloc: Global,
    random: &mut Random,
    module: u32,
    size: usize,
) -> Result<String, AllocError> {
    let mut text = String::from_str(alloc, "const COUNT = 3 + 5;\n")?;
    let mut structures = 0u32;
    let mut variables = 0u32;
    for number in 0..u32::MAX {
        if text.len() >= size {
            break;
        }
        match random.below(8) {
            0 => {
                add_structure(&mut text, random, module, structures)?;
                structures = structures.wrapping_add(1);
            }
            1 if variables < structures => {
                add_variable(&mut text, random, module, variables)?;
                variables = variables.wrapping_add(1);
            }
            2 => write!(
                text,
                "const LIMIT_{number} = COUNT * {}u;\n",
                random.below(1000)
            )?,
            _ => add_function(&mut text, random, number)?,
        }
    }
    Ok(text)
}

fn add_structure(
    text: &mut String,
    random: &mut Random,
    module: u32,
    number: u32,
) -> Result<(), AllocError> {
    write!(text, "struct Block{number}_{module} {{\n")?;
    for member in 0..random.below(8).wrapping_add(2) {
        if random.below(9) == 0 && number > 0 {
            let inner = random.below(number);
            write!(text, "    member_{member}: Block{inner}_{module},\n")?;
        } else {
            let ty = picked(&TYPES, random);
            write!(text, "    member_{member}: {ty},\n")?;
        }
    }
    text.push_str("}\n")
}

// The variable of the structure of the number.
fn add_variable(
    text: &mut String,
    random: &mut Random,
    module: u32,
    number: u32,
) -> Result<(), AllocError> {
    let binding = random.below(1000);
    if random.below(2) == 0 {
        let declared = "var<uniform>";
        write!(
            text,
            "@group(0) @binding({binding}) {declared} uniform_{number}: Block{number}_{module};\n"
        )
    } else {
        let declared = "var<storage, read_write>";
        write!(
            text,
            "@group(1) @binding({binding}) {declared} buffer_{number}: array<Block{number}_{module}>;\n"
        )
    }
}

fn add_function(text: &mut String, random: &mut Random, number: u32) -> Result<(), AllocError> {
    write!(
        text,
        "fn function_{number}(in: VertexOutput, index: u32) -> vec4<f32> {{\n"
    )?;
    for _ in 0..random.below(20).wrapping_add(4) {
        let line = picked(&LINES, random);
        text.push_str(line)?;
    }
    text.push_str("}\n\n")
}

/// What a module has, and where it lies.
pub(crate) fn lay_out(alloc: Global, text: &str, digest: &mut Digest) -> Result<(), AllocError> {
    let reading = Reading::of_module(alloc, text)?;
    digest.add_faults(alloc, reading.faults())?;
    let Declarations { items, messages } = resolve(alloc, &reading)?;
    digest.add_messages(&messages);
    digest.add_count(items.len());
    for item in &items {
        add_item(alloc, item, digest)?;
    }
    Ok(())
}

fn add_item(alloc: Global, item: &Item, digest: &mut Digest) -> Result<(), AllocError> {
    digest.add_text(item.name.as_str());
    digest.add_extent(item.start, item.end);
    digest.add(kind_of(&item.kind));
    match &item.kind {
        ItemKind::Struct(ty) => add_structure_type(alloc, ty, digest),
        ItemKind::Variable(variable) => add_variable_found(alloc, variable, digest),
        ItemKind::Alias(ty) => add_measures(alloc, ty, digest),
        ItemKind::Value(value) => digest.add_value(alloc, value),
        ItemKind::Skipped(_) | ItemKind::Faulty => Ok(()),
    }
}

fn kind_of(kind: &ItemKind) -> u64 {
    match kind {
        ItemKind::Struct(_) => 0,
        ItemKind::Variable(_) => 1,
        ItemKind::Alias(_) => 2,
        ItemKind::Value(_) => 3,
        ItemKind::Skipped(_) => 4,
        ItemKind::Faulty => 5,
    }
}

fn add_structure_type(alloc: Global, ty: &Type, digest: &mut Digest) -> Result<(), AllocError> {
    digest.add_type(alloc, ty)?;
    match ty.as_struct() {
        Some(structure) => add_places(alloc, structure, digest),
        None => Ok(()),
    }
}

fn add_places(alloc: Global, ty: &StructType, digest: &mut Digest) -> Result<(), AllocError> {
    for place in &ty.member_layouts(alloc)? {
        digest.add_number(place.offset);
        digest.add_number(place.size);
        digest.add_number(place.align);
        digest.add_number(place.padding);
    }
    digest.add_number(ty.size_of());
    digest.add_number(ty.align_of());
    Ok(())
}

fn add_variable_found(
    alloc: Global,
    variable: &Variable,
    digest: &mut Digest,
) -> Result<(), AllocError> {
    digest.add_number(variable.space.map(number_of_space));
    digest.add_number(variable.access.map(number_of_access));
    digest.add_number(variable.group);
    digest.add_number(variable.binding);
    add_measures(alloc, &variable.ty, digest)
}

fn number_of_space(space: AddressSpace) -> u32 {
    match space {
        AddressSpace::Function => 0,
        AddressSpace::Private => 1,
        AddressSpace::Workgroup => 2,
        AddressSpace::Uniform => 3,
        AddressSpace::Storage => 4,
        AddressSpace::Handle => 5,
    }
}

fn number_of_access(access: AccessMode) -> u32 {
    match access {
        AccessMode::Read => 0,
        AccessMode::Write => 1,
        AccessMode::ReadWrite => 2,
    }
}

// The type, and what a host asks of it.
fn add_measures(alloc: Global, ty: &Type, digest: &mut Digest) -> Result<(), AllocError> {
    digest.add_type(alloc, ty)?;
    digest.add_number(ty.least_binding());
    digest.add_number(ty.stride());
    match ty.uniform_rule() {
        Some(rule) => add_rule(rule, digest),
        None => digest.add(0),
    }
    match ty.as_struct() {
        Some(structure) => add_uniform_faults(alloc, structure, digest),
        None => Ok(()),
    }
}

fn add_uniform_faults(
    alloc: Global,
    structure: &StructType,
    digest: &mut Digest,
) -> Result<(), AllocError> {
    let faults = structure.uniform_faults(alloc)?;
    digest.add_count(faults.len());
    for fault in &faults {
        digest.add_count(fault.member);
        add_rule(fault.rule, digest);
    }
    Ok(())
}

// The rule, and the number that breaks it.
fn add_rule(rule: UniformRule, digest: &mut Digest) {
    let (case, number) = match rule {
        UniformRule::NotShared => (1, None),
        UniformRule::RuntimeSized => (2, None),
        UniformRule::NotKnown => (3, None),
        UniformRule::Stride(n) => (4, Some(n)),
        UniformRule::Align(n) => (5, Some(n)),
        UniformRule::Offset(n) => (6, Some(n)),
        UniformRule::Distance(n) => (7, Some(n)),
    };
    digest.add(case);
    digest.add_number(number);
}
