// Port of src/multicubic/mod.rs (`Saturation`), and what both kinds of grid share: places, answers and checks 1 to 4.
#![tactic(auto)]

ghost use Rattle.std.specs.Prelude.{◌≡◌, false, ◌||◌, ◌≤◌, ltb, pos, ◌-ℤ◌, length, take, Err};
ghost use Rattle.multicubic.specs.declared.Check.TheVariants.{TooFew};
ghost use Rattle.multicubic.specs.Types.{refusal};
ghost use Rattle.multicubic.specs.Grid.{product, sum, any_over, lowest, misjoined, size_checks};
ghost use Rattle.multicubic.specs.Place.{straight_of, place_of};
ghost use Rattle.multicubic.specs.Internal.{four_nowhere, four_unmarked};
ghost use Rattle.multicubic.specs.Answers.{check_number, check_of, answer_outcome, answered, place_at};

// Where a query lies on one axis.
#[derive(Clone, Copy)]
pub enum Saturation {
    None,
    InsideLow,
    OutsideLow,
    InsideHigh,
    OutsideHigh,
}

#[derive(Clone, Copy)]
pub struct Place {
    pub origin: usize,
    pub class: Saturation,
}

// What is looked at, in the order of its numbers.
#[derive(Clone, Copy)]
pub enum Check {
    AxisCount,
    TooLarge,
    WrongLength,
    TooFew,
    NotRising,
    Disordered,
    BatchLength,
    NoPlace,
    NoNumber,
    NotSteep,
}

impl Check {
    // The number by which a refusal is told, from 1 on.
    pub fn number(self) -> u8
        ensures { result ≡ check_number self }
    {
        match self {
            Check::AxisCount => 1,
            Check::TooLarge => 2,
            Check::WrongLength => 3,
            Check::TooFew => 4,
            Check::NotRising => 5,
            Check::Disordered => 6,
            Check::BatchLength => 7,
            Check::NoPlace => 8,
            Check::NoNumber => 9,
            Check::NotSteep => 10,
        }
    }

    // Its refusal of an axis of a query.
    pub fn at(self, query: usize, axis: usize) -> Refusal
        ensures { result ≡ refusal self query axis }
    {
        Refusal {
            check: self,
            query,
            axis,
        }
    }
}

// The check that refuses, and of which query and axis: 0 where it is of none.
#[derive(Clone, Copy)]
pub struct Refusal {
    pub check: Check,
    pub query: usize,
    pub axis: usize,
}

// The answer of a call without a value.
pub type Outcome = Result<(), Refusal>;

// A single query's value, or the refusal.
pub type Answer<T> = Result<T, Refusal>;

// Why a query has no place on an axis.
#[derive(Clone, Copy)]
pub enum LocError {
    NotANumber,
    Unplaceable,
}

impl LocError {
    // The check that refuses the query.
    pub fn check(self) -> Check
        ensures { result ≡ check_of self }
    {
        match self {
            LocError::NotANumber => Check::NoNumber,
            LocError::Unplaceable => Check::NoPlace,
        }
    }
}

// What `get_loc` finds on one axis.
pub type Loc = Result<Place, LocError>;

// A regular axis.
#[derive(Clone, Copy)]
pub struct Axis<T> {
    pub start: T,
    pub step: T,
    pub count: usize,
}

// The way past an axis's ends: the cubic or the straight line, which the two Outside classes follow (Straight is the Rust's
// `linearize_extrapolation`), or the end's node in place of the query.
#[derive(Clone, Copy)]
pub enum EdgeMode {
    Cubic,
    Straight,
    Held,
}

impl EdgeMode {
    // Whether the Outside classes follow a straight line.
    pub fn linearize_extrapolation(self) -> bool
        ensures { result ≡ straight_of self }
    {
        match self {
            EdgeMode::Cubic | EdgeMode::Held => false,
            EdgeMode::Straight => true,
        }
    }
}

// Past which ends of an axis a query lies.
#[derive(Clone, Copy)]
pub struct Marks {
    pub below: bool,
    pub above: bool,
}

impl Marks {
    // Whether a query lies past either end.
    pub fn is_past(self) -> bool
        ensures { result ≡ (self.below || self.above) }
    {
        self.below || self.above
    }
}

// Where a query lies on every axis: origin 0 and None past the axis count, and on refusal. A refusal's places are promised, as are its gradient and
// its marks, so that they stand beside the outcome.
#[derive(Clone, Copy)]
pub struct PlaceAnswer {
    pub outcome: Outcome,
    pub places: [Place; 4],
}

// A query's gradient: +0 past the axis count, and on refusal.
#[derive(Clone, Copy)]
pub struct GradientAnswer<T> {
    pub outcome: Outcome,
    pub gradient: [T; 4],
}

// A single answer beside its marks, one pair for each axis: unset past the axis count, and on refusal.
#[derive(Clone, Copy)]
pub struct Marked<A> {
    pub answer: A,
    pub marks: [Marks; 4],
}

// A query's place on an axis, or its refusal there.
pub fn place_at(query: usize, axis: usize, loc: Loc) -> Result<Place, Refusal>
    ensures { result ≡ place_at query axis loc }
{
    loc.map_err(|error| error.check().at(query, axis))
}

// The outcome as a value's answer: the refusal, or the value where there is none.
pub fn answered<T: Copy>(outcome: Outcome, value: T) -> Answer<T>
    ensures { result ≡ answered outcome value }
{
    outcome.map(|()| value)
}

// The outcome of a value's answer.
pub fn outcome_of<T: Copy>(answer: Answer<T>) -> Outcome
    ensures { result ≡ answer_outcome answer }
{
    answer.map(|_| ())
}

// The place on an axis of n entries where L is k less 2.
pub fn place_from(n: usize, k: usize) -> Place
    requires { 4 ≤ n }
    ensures { result ≡ place_of n (pos k -ℤ pos 2) }
{
    let (origin, class) = if k == 0 {
        (0, Saturation::OutsideLow)
    } else if k == 1 {
        (0, Saturation::InsideLow)
    } else if k < n - 1 {
        (k - 2, Saturation::None)
    } else if k == n - 1 {
        (n - 4, Saturation::InsideHigh)
    } else {
        (n - 4, Saturation::OutsideHigh)
    };
    Place { origin, class }
}

// Origin 0, None, on four axes.
pub fn nowhere() -> [Place; 4]
    ensures { result ≡ four_nowhere }
{
    let place = Place {
        origin: 0,
        class: Saturation::None,
    };
    [place; 4]
}

// What a refusal answers in place of places.
pub fn unplaced(outcome: Outcome) -> PlaceAnswer
    ensures outcome_value { result.outcome ≡ outcome }
    ensures places_value { result.places ≡ four_nowhere }
{
    PlaceAnswer {
        outcome,
        places: nowhere(),
    }
}

// Neither end, on four axes.
pub fn unmarked() -> [Marks; 4]
    ensures { result ≡ four_unmarked }
{
    let neither = Marks {
        below: false,
        above: false,
    };
    [neither; 4]
}

// Whether one of the counts is over 4,096.
fn any_over(counts: &[usize]) -> bool
    ensures { result ≡ any_over counts.now }
{
    for count in counts {
        if 4096 < *count {
            return true;
        }
    }
    false
}

// The product of at most four counts. It is taken whole: a count of 0 after large ones makes it 0.
fn product_of(counts: &[usize]) -> usize
    requires counts_bound { length counts.now ≤ 4 }
    requires counts_value { any_over counts.now ≡ false }
    ensures { result ≡ product counts.now }
{
    let mut p: usize = 1;
    for count in counts {
        p *= *count;
    }
    p
}

// The sum of the first n counts.
pub fn sum_of(n: usize, counts: [usize; 4]) -> usize
    requires n_bound { n ≤ 4 }
    requires counts_value { any_over (take n counts) ≡ false }
    ensures { result ≡ sum (take n counts) }
{
    let mut total: usize = 0;
    for count in &counts[..n] {
        total += *count;
    }
    total
}

// Check 4: the lowest axis under 4 entries.
fn first_short(counts: &[usize]) -> Outcome
    ensures { result ≡ lowest TooFew (λ c. ltb c 4) 0 counts.now }
{
    for (axis, count) in counts.iter().enumerate() {
        if *count < 4 {
            return Err(Check::TooFew.at(0, axis));
        }
    }
    Ok(())
}

// Whether the joined axes' length is another than the sum of counts; a regular grid has none.
fn misjoined(axes: Option<usize>, total: usize) -> bool
    ensures { result ≡ misjoined axes total }
{
    match axes {
        None => false,
        Some(length) => length != total,
    }
}

fn refused(check: Check) -> Outcome
    ensures { result ≡ Err (refusal check 0 0) }
{
    Err(check.at(0, 0))
}

// Checks 1 to 4: the counts of an axis_count axes, the length of the values and that of the joined axes of a rectilinear grid.
pub fn check_sizes(
    axis_count: usize,
    counts: [usize; 4],
    values: usize,
    axes: Option<usize>,
) -> Outcome
    ensures { result ≡ size_checks axis_count counts values axes }
{
    if axis_count == 0 {
        return refused(Check::AxisCount);
    }
    if 4 < axis_count {
        return refused(Check::AxisCount);
    }
    if any_over(&counts[..axis_count]) {
        return refused(Check::TooLarge);
    }
    let size = product_of(&counts[..axis_count]);
    if 1048576 < size {
        return refused(Check::TooLarge);
    }
    if values != size {
        return refused(Check::WrongLength);
    }
    let total = sum_of(axis_count, counts);
    if misjoined(axes, total) {
        return refused(Check::WrongLength);
    }
    first_short(&counts[..axis_count])
}
