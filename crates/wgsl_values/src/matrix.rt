//! Matrices (WGSL: matrix types).

ghost use Rattle.std.specs.Borrow.{LendsSo, sem};
ghost use Rattle.std.specs.Cmp.{partial_equiv_from_equiv};
ghost use Rattle.std.specs.Fmt.{WritesOnOk};
ghost use Rattle.std.specs.Prelude.{◌≡◌, ◌↔◌, IfOk, IsTrue, option_map, ℕ, IfSome, is_some, Some};
ghost use Rattle.wgsl_rules.specs.Conversion.{rank};
ghost use Rattle.wgsl_rules.specs.Converted.{all_converted, converted};
ghost use Rattle.wgsl_rules.specs.Paths.{parts};
ghost use Rattle.wgsl_rules.specs.Types as types;
ghost use Rattle.wgsl_rules.specs.Types.{Ty};
ghost use Rattle.wgsl_rules.specs.Values.{IsStorable, IsWellFormed, AreStorable, first_type, matrix, vector, count, item, type_of, AreVectors};
ghost use Rattle.wgsl_rules.specs.View.{type_view};
ghost use Rattle.wgsl_values.specs.Equal.{mats_equiv};
ghost use Rattle.wgsl_values.specs.Iterators.{all_components, into_items_left, items_left, listed, mat_items_left};
ghost use Rattle.wgsl_values.specs.Matrices.{row_count, row, transposed};
ghost use Rattle.wgsl_values.specs.Parts.{component_at};
ghost use Rattle.wgsl_values.specs.Rows.{lent_type};
ghost use Rattle.wgsl_values.specs.Same.{same_value};
ghost use Rattle.wgsl_values.specs.Texts.{text_of_value};
ghost use Rattle.wgsl_values.specs.View.{value_of, vals_view, mat_view, vec_view};
ghost use Rattle.wgsl_values.specs.Written.{IsAsSound, IsWritten, with_inner_part, with_part};
ghost use Rattle.wgsl_values.specs.contracts.instance.Instance.{the_row};
ghost use Rattle.wgsl_values.specs.contracts.matrix.MatInstance as mat_row;

use crate::instance::Instance;
use crate::iter::{IntoItems, Items, MatItems};
use crate::lists::{
    clone_values, have_one_type, is_component_count, nth, nth_mut, same_parts, write_items,
};
use crate::vector::VecInstance;
use std::alloc::{AllocError, Global};
use std::fmt;
use std::fmt::Display;
use wgsl_rules::{Convert, Ty, Type};

/// A matrix: its columns, each a vector (WGSL: matrix types).
#[cycle(values)]
#[derive(Debug, Drop)]
pub struct MatInstance {
    pub(crate) columns: Vec<Instance>,
}

impl MatInstance {
    /// A matrix of the columns, in order (WGSL: matrix types). The condition: two to four vectors
    /// of one type, each storable.
    pub fn from_cols(columns: Vec<Instance>) -> Self
        requires { IsStorable (matrix (vals_view columns.items)) }
        ensures { mat_view result ≡ matrix (vals_view columns.items) }
    {
        MatInstance { columns }
    }

    /// Whether the condition of [`MatInstance::from_cols`] holds.
    #[cycle(storable)]
    pub fn can_make(columns: &[Instance]) -> bool
        ensures { IsTrue result ↔ IsStorable (matrix (vals_view columns.now)) }
    {
        if !is_component_count(columns.len()) {
            return false;
        }
        columns[0].is_vector() && have_one_type(columns)
    }

    /// How many rows there are: as many as the first column has components.
    pub fn r(&self) -> usize
        ensures { result ≡ row_count (parts (mat_view self.now)) }
    {
        match self.columns.first().and_then(Instance::as_vec) {
            Some(column) => column.n(),
            None => 0,
        }
    }

    /// How many columns there are.
    #[tactic(auto, using(crate::proofs::Counts::columns_counted))]
    pub fn c(&self) -> usize
        ensures { result ≡ count (parts (mat_view self.now)) }
    {
        self.columns.len()
    }

    /// The column at the index.
    pub fn col(&self, i: usize) -> Option<&Instance>
        ensures { option_map (λ v. value_of v.now) result ≡ item i (parts (mat_view self.now)) }
    {
        nth(&self.columns, i)
    }

    /// The component in the column and the row.
    pub fn get(&self, col: usize, row: usize) -> Option<&Instance>
        ensures { option_map (λ v. value_of v.now) result ≡ component_at col row (parts (mat_view self.now)) }
    {
        let column = self.col(col)?.as_vec()?;
        column.get(row)
    }

    /// The column at the index, to be written (WGSL: matrix access expression). A matrix is
    /// well-formed again where what was written is storable and of the type of what was there.
    pub fn col_mut(&mut self, i: usize) -> Option<&mut Instance>
        ensures* writes_back { sem 𝓛 (LendsSo mat_row.the_row the_row self.entry result
            (λ n w. IsWritten (with_part i) (lent_type result) (value_of w) (mat_view self.old) (mat_view n)) (λ n. n ≡ self.old)) }
        ensures value { option_map (λ v. value_of v.now) result ≡ item i (parts (mat_view self.old)) }
        ensures sound { IfSome result (λ part. IsAsSound (value_of part.now) (mat_view self.old)) }
        ensures ty { IfSome result (λ part. (columns rows : ℕ) (t : Ty) → IsWellFormed (mat_view self.old)
            → type_of (mat_view self.old) ≡ types.mat columns rows t → type_of (value_of part.now) ≡ types.vec rows t) }
    {
        nth_mut(&mut self.columns, i)
    }

    /// The component in the column and the row, to be written; `None` past either end. A matrix is
    /// well-formed again where what was written is a literal of the kind of what was there.
    pub fn get_mut(&mut self, col: usize, row: usize) -> Option<&mut Instance>
        ensures* writes_back { sem 𝓛 (LendsSo mat_row.the_row the_row self.entry result
            (λ n w. IsWritten (with_inner_part col row) (lent_type result) (value_of w) (mat_view self.old) (mat_view n)) (λ n. mat_view n ≡ mat_view self.old)) }
        ensures value { option_map (λ v. value_of v.now) result ≡ component_at col row (parts (mat_view self.old)) }
        ensures sound { IfSome result (λ part. IsAsSound (value_of part.now) (mat_view self.old)) }
        ensures ty { IfSome result (λ part. (columns rows : ℕ) (t : Ty) → IsWellFormed (mat_view self.old)
            → type_of (mat_view self.old) ≡ types.mat columns rows t → type_of (value_of part.now) ≡ t) }
    {
        let column = nth_mut(&mut self.columns, col)?;
        let components = column.as_vec_mut()?;
        nth_mut(&mut components.components, row)
    }

    /// The columns, in order.
    pub fn iter_cols(&self) -> Items<'_>
        ensures { items_left result ≡ listed (parts (mat_view self.now)) }
    {
        Items::new(&self.columns)
    }

    /// The components, column by column.
    pub fn iter(&self) -> MatItems<'_>
        ensures { mat_items_left result ≡ all_components (listed (parts (mat_view self.now))) }
    {
        MatItems {
            column: Items::new(&[]),
            columns: self.iter_cols(),
        }
    }

    /// A copy of the matrix, in memory of its own.
    #[cycle(clone)]
    pub fn clone(&self, alloc: Global) -> Result<MatInstance, AllocError>
        ensures { IfOk result (λ v. mat_view v ≡ mat_view self.now) }
    {
        let columns = clone_values(alloc, &self.columns)?;
        Ok(MatInstance { columns })
    }

    // How many columns there are.
    fn width(&self) -> u8
        requires { IsStorable (mat_view self.now) }
        ensures { result ≡ count (parts (mat_view self.now)) }
    {
        self.columns.len() as u8
    }

    // The first column, whose type is that of each.
    fn first_column(&self) -> &VecInstance
        requires { IsStorable (mat_view self.now) }
        ensures ty { type_of (vec_view result.now) ≡ first_type (parts (mat_view self.now)) }
        ensures storable { IsStorable (vec_view result.now) }
    {
        match &self.columns[0] {
            Instance::Vec(column) => column,
            Instance::Literal(_) | Instance::Struct(_) | Instance::Array(_) => unreachable!(),
            Instance::Mat(_) | Instance::Ptr(_) | Instance::Ref(_) => unreachable!(),
            Instance::Atomic(_) | Instance::Deferred(_) => unreachable!(),
        }
    }

    // Whether there are so many columns and rows of the type.
    fn is_of(&self, columns: u8, rows: u8, scalar: &Type) -> bool
        requires { IsStorable (mat_view self.now) }
        ensures { IsTrue result ↔ (type_of (mat_view self.now) ≡ types.mat columns rows (type_view scalar.now)) }
    {
        self.width() == columns && self.first_column().is_of(rows, scalar)
    }

    pub(crate) fn same_type(&self, other: &MatInstance) -> bool
        requires own { IsStorable (mat_view self.now) }
        requires others { IsStorable (mat_view other.now) }
        ensures { IsTrue result ↔ (type_of (mat_view self.now) ≡ type_of (mat_view other.now)) }
    {
        let column = other.first_column();
        self.is_of(other.width(), column.size(), &column.scalar_ty())
    }

    // The matrix of the shape with each scalar in the type, where it is one of that shape.
    fn convert_scalars(
        &self,
        alloc: Global,
        columns: u8,
        rows: u8,
        ty: &Type,
    ) -> Result<Option<MatInstance>, AllocError>
        requires { IsStorable (mat_view self.now) }
        ensures { IfOk result (λ o. option_map mat_view o ≡ converted (mat_view self.now) (types.mat columns rows (type_view ty.now))) }
    {
        if self.width() != columns {
            return Ok(None);
        }
        let Some(columns) = convert_columns(alloc, &self.columns, rows, ty)? else {
            return Ok(None);
        };
        Ok(Some(MatInstance { columns }))
    }

    pub(crate) fn is_convertible_to(&self, ty: &Type) -> bool
        requires { IsStorable (mat_view self.now) }
        ensures { result ≡ is_some (rank (type_of (mat_view self.now)) (type_view ty.now)) }
    {
        let column = self.first_column();
        match ty.as_mat() {
            Some((columns, rows, scalar)) => {
                self.width() == columns && column.converts(rows, scalar)
            }
            None => false,
        }
    }

    // Component i of each column.
    fn row(&self, alloc: Global, i: usize) -> Result<VecInstance, AllocError>
        requires { IsStorable (mat_view self.now) }
        ensures { IfOk result (λ v. vec_view v ≡ vector (row i (parts (mat_view self.now)))) }
    {
        let mut components = Vec::with_capacity(alloc, self.columns.len())?;
        for column in &self.columns {
            if let Some(literal) = column.unwrap_vec_ref().literal(i) {
                components.push(Instance::Literal(literal))?;
            }
        }
        Ok(VecInstance { components })
    }

    /// The matrix with the rows for columns (WGSL: transpose). The condition: the matrix is
    /// well-formed.
    pub fn transpose(&self, alloc: Global) -> Result<MatInstance, AllocError>
        requires { IsStorable (mat_view self.now) }
        ensures { IfOk result (λ m. mat_view m ≡ transposed (mat_view self.now)) }
    {
        let rows = self.r();
        let mut columns = Vec::with_capacity(alloc, rows)?;
        for i in 0..rows {
            columns.push(Instance::Vec(self.row(alloc, i)?))?;
        }
        Ok(MatInstance { columns })
    }
}

/// The columns, in order.
impl IntoIterator for MatInstance {
    type Item = Instance;

    type IntoIter = IntoItems;

    ghost into_iter_gives = { λ m items. into_items_left items ≡ listed (parts (mat_view m)) };

    fn into_iter(self) -> IntoItems {
        IntoItems::new(self.columns)
    }
}

/// The columns are vectors of one type (WGSL: matrix types).
impl Ty for MatInstance {
    ghost use Rattle.wgsl_values.specs.View.{mat_view};

    ghost value_of = { mat_view };

    fn ty(&self, alloc: Global) -> Result<Type, AllocError> {
        let column = self.first_column();
        let scalar = Box::new(alloc, column.scalar_ty())?;
        Ok(Type::Mat(self.width(), column.size(), scalar))
    }

    fn inner_ty(&self, _alloc: Global) -> Result<Type, AllocError> {
        Ok(self.first_column().scalar_ty())
    }

    fn has_ty(&self, ty: &Type) -> bool {
        match ty.as_mat() {
            Some((columns, rows, scalar)) => self.is_of(columns, rows, scalar),
            None => false,
        }
    }
}

/// A matrix converts to a matrix type of its shape, scalar by scalar.
impl Convert for MatInstance {
    ghost use Rattle.wgsl_rules.specs.Converted.{converted, inner_converted};
    ghost use Rattle.wgsl_rules.proofs.lemmas.Converted.{
      converted-type,
      converted-well_formed,
      converted-own,
      inner_converted-well_formed,
    };
    ghost use Rattle.wgsl_values.specs.View.{mat_view};

    ghost converted = { converted };

    ghost converted_inner = { inner_converted };

    ghost gives_type = { λ x. converted-type (mat_view x) };

    ghost gives_well_formed = { λ x. converted-well_formed (mat_view x) };

    ghost inner_gives_well_formed = { λ x. inner_converted-well_formed (mat_view x) };

    ghost keeps_own = { λ x. converted-own (mat_view x) };

    fn convert_to(&self, alloc: Global, ty: &Type) -> Result<Option<MatInstance>, AllocError> {
        match ty.as_mat() {
            Some((columns, rows, scalar)) => self.convert_scalars(alloc, columns, rows, scalar),
            None => Ok(None),
        }
    }

    fn convert_inner_to(
        &self,
        alloc: Global,
        ty: &Type,
    ) -> Result<Option<MatInstance>, AllocError> {
        self.convert_scalars(alloc, self.width(), self.first_column().size(), ty)
    }
}

/// `mat` with the numbers of columns and rows, as `mat2x3`, and the columns in parentheses.
impl Display for MatInstance {
    ghost output = { λ m. Some (text_of_value (mat_view m)) };

    fn fmt<W: fmt::Write>(&self, f: &mut fmt::Formatter<W>) -> fmt::Result {
        write_mat(f, self)
    }
}

impl PartialEq for MatInstance {
    ghost eq = { λ v w. same_value (mat_view v) (mat_view w) };

    ghost laws = { partial_equiv_from_equiv mats_equiv };

    #[cycle(same)]
    fn eq(&self, other: &MatInstance) -> bool {
        same_parts(&self.columns, &other.columns)
    }
}

impl Eq for MatInstance {
    ghost laws = { mats_equiv };
}

// Each of the columns with so many rows of the type, where each converts to that.
#[tactic(auto, using(crate::proofs::Conversions::column_steps))]
fn convert_columns(
    alloc: Global,
    columns: &Vec<Instance>,
    rows: u8,
    ty: &Type,
) -> Result<Option<Vec<Instance>>, AllocError>
    requires vectors { AreVectors (vals_view columns.now.items) }
    requires storable { AreStorable (vals_view columns.now.items) }
    ensures { IfOk result (λ o. option_map (λ v. vals_view v.items) o ≡ all_converted (vals_view columns.now.items) (types.vec rows (type_view ty.now))) }
{
    let mut all = Vec::with_capacity(alloc, columns.len())?;
    for column in columns {
        let Some(converted) = column.unwrap_vec_ref().convert_components(alloc, rows, ty)? else {
            return Ok(None);
        };
        all.push(Instance::Vec(converted))?;
    }
    Ok(Some(all))
}

#[cycle(texts)]
pub(crate) fn write_mat<W: fmt::Write>(
    f: &mut fmt::Formatter<W>,
    value: &MatInstance,
) -> fmt::Result
    ensures { WritesOnOk W.write_str_gives f.old result (text_of_value (mat_view value.now)) f.new }
{
    let c = value.columns.len();
    let r = value.r();
    write!(f, "mat{c}x{r}(")?;
    write_items(f, &value.columns)?;
    f.write_str(")")
}
