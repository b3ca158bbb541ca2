//! What becomes of the rings and the properties of a topology in the unit of the map.
use attributes::Scale;
use fixing::Rewind;

/// Which decimal texts of properties become numbers again.
#[derive(Clone, Copy, Debug)]
pub enum NumbersBack<'r> {
    /// Texts stay texts.
    None,
    /// Decimal texts of these properties become numbers.
    Named(&'r [&'r str]),
    /// Decimal texts become numbers of each property of a layer whose values are all null, whole numbers or decimal
    /// texts, at least one of them with a point or an exponent.
    Columns,
}

/// What becomes of the rings and the properties of a topology in the unit of the map.
#[derive(Clone, Copy, Debug)]
pub struct BackRules<'r> {
    pub rewind: Rewind,
    pub numbers: NumbersBack<'r>,
    /// The properties whose whole numbers are divided by a power of ten. Of one name the first counts.
    pub scales: &'r [Scale<'r>],
}
