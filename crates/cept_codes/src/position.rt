ghost use Rattle.std.specs.Prelude.{◌≡◌, ◌≤◌, ◌<◌, ◌+◌, ◌-◌, ◌↔◌, IsSome, IfSome};

use std::marker::Model;

/// A row of the screen, 1 to 24 from the top.
#[derive(Clone, Copy, Debug, PartialEq, Eq)]
pub struct Row {
    number: u8,
}

impl Model for Row {
    ghost use Rattle.std.specs.Prelude.{ℕ};
    ghost use Rattle.cept_codes.specs.Place.{IsRow};

    ghost Value = { ℕ };

    ghost view = { λ r. r.number };

    ghost invariant = { λ r. IsRow r.number };

    ghost inverse = { λ n. record { number = n } };
}

impl Row {
    ghost use Rattle.cept_codes.specs.Place.{IsRow};

    /// The row of this number, `None` outside 1 to 24.
    pub fn new(number: u8) -> Option<Row>
        ensures exactly { IsSome result ↔ IsRow number }
        ensures row { IfSome result (λ r. r ≡ number) }
    {
        if 1 <= number && number <= 24 {
            Some(Row { number })
        } else {
            None
        }
    }

    /// The row of a number that is known to be one, 1 to 24.
    #[inline(always)]
    pub fn numbered(number: u8) -> Row
        requires from_top { 1 ≤ number }
        requires to_bottom { number ≤ 24 }
        ensures { result ≡ number }
    {
        Row { number }
    }

    /// The number, 1 to 24.
    #[inline(always)]
    pub fn number(self) -> u8
        ensures number { result ≡ self }
        ensures in_range { IsRow self }
    {
        self.number
    }

    /// The place in a list of all rows, 0 to 23.
    #[inline(always)]
    pub fn index(self) -> usize
        ensures index { result ≡ self - 1 }
        ensures in_range { IsRow self }
        ensures below { result < 24 }
    {
        usize::from(self.number) - 1
    }

    /// The row above, `None` above the first.
    #[inline(always)]
    pub fn above(self) -> Option<Row>
        ensures exactly { IsSome result ↔ (2 ≤ self) }
        ensures row { IfSome result (λ r. r ≡ self - 1) }
        ensures in_range { IsRow self }
    {
        if self.number == 1 {
            None
        } else {
            Some(Row {
                number: self.number - 1,
            })
        }
    }
}

/// A column of the screen, 1 to 40 from the left.
#[derive(Clone, Copy, Debug, PartialEq, Eq)]
pub struct Column {
    number: u8,
}

impl Model for Column {
    ghost use Rattle.std.specs.Prelude.{ℕ};
    ghost use Rattle.cept_codes.specs.Place.{IsColumn};

    ghost Value = { ℕ };

    ghost view = { λ c. c.number };

    ghost invariant = { λ c. IsColumn c.number };

    ghost inverse = { λ n. record { number = n } };
}

impl Column {
    ghost use Rattle.cept_codes.specs.Place.{IsColumn};

    /// The column of this number, `None` outside 1 to 40.
    pub fn new(number: u8) -> Option<Column>
        ensures exactly { IsSome result ↔ IsColumn number }
        ensures column { IfSome result (λ c. c ≡ number) }
    {
        if 1 <= number && number <= 40 {
            Some(Column { number })
        } else {
            None
        }
    }

    /// The column of a number that is known to be one, 1 to 40.
    #[inline(always)]
    pub fn numbered(number: u8) -> Column
        requires from_left { 1 ≤ number }
        requires to_right { number ≤ 40 }
        ensures { result ≡ number }
    {
        Column { number }
    }

    /// The number, 1 to 40.
    #[inline(always)]
    pub fn number(self) -> u8
        ensures number { result ≡ self }
        ensures in_range { IsColumn self }
    {
        self.number
    }

    /// The place in a list of all columns, 0 to 39.
    #[inline(always)]
    pub fn index(self) -> usize
        ensures index { result ≡ self - 1 }
        ensures in_range { IsColumn self }
        ensures below { result < 40 }
    {
        usize::from(self.number) - 1
    }

    /// The column to the left, `None` left of the first.
    #[inline(always)]
    pub fn left(self) -> Option<Column>
        ensures exactly { IsSome result ↔ (2 ≤ self) }
        ensures column { IfSome result (λ c. c ≡ self - 1) }
        ensures in_range { IsColumn self }
    {
        if self.number == 1 {
            None
        } else {
            Some(Column {
                number: self.number - 1,
            })
        }
    }

    /// The column to the right, `None` right of the last.
    #[inline(always)]
    pub fn right(self) -> Option<Column>
        ensures exactly { IsSome result ↔ (self ≤ 39) }
        ensures column { IfSome result (λ c. c ≡ self + 1) }
        ensures in_range { IsColumn self }
    {
        if self.number == 40 {
            None
        } else {
            Some(Column {
                number: self.number + 1,
            })
        }
    }
}

/// A position of the screen: row 1 to 24 from the top, column 1 to 40 from the left.
#[derive(Clone, Copy, Debug, PartialEq, Eq)]
pub struct Pos {
    row: u8,
    column: u8,
}

impl Model for Pos {
    ghost use Rattle.cept_codes.specs.Place.{Place, OnScreen};

    ghost Value = { Place };

    ghost view = { λ p. record { row = p.row; column = p.column } };

    ghost invariant = { λ p. OnScreen p.row p.column };

    ghost inverse = { λ p. record { row = p.row; column = p.column } };
}

impl Pos {
    ghost use Rattle.cept_codes.specs.Place.{IsColumn, IsRow, OnScreen, number, place_of};

    /// The position in this row and column, `None` where there is no such position.
    pub fn new(row: u8, col: u8) -> Option<Pos>
        ensures exactly { IsSome result ↔ OnScreen row col }
        ensures place { IfSome result (λ p. (p.row ≡ row) × (p.column ≡ col)) }
    {
        if 1 <= row && row <= 24 && 1 <= col && col <= 40 {
            Some(Pos { row, column: col })
        } else {
            None
        }
    }

    /// The place in this row and column.
    #[inline(always)]
    pub fn at(row: Row, column: Column) -> Pos
        ensures row { result.row ≡ row }
        ensures column { result.column ≡ column }
    {
        Pos {
            row: row.number,
            column: column.number,
        }
    }

    /// The position with this number in reading order, `None` from 960 on.
    pub fn from_number(number: u16) -> Option<Pos>
        ensures exactly { IsSome result ↔ (number < 960) }
        ensures place { IfSome result (λ p. p ≡ place_of number) }
    {
        if number < 960 {
            Some(Pos {
                row: (number / 40) as u8 + 1,
                column: (number % 40) as u8 + 1,
            })
        } else {
            None
        }
    }

    /// The row, 1 to 24 from the top.
    pub fn row(&self) -> u8
        ensures row { result ≡ self.now.row }
        ensures on_screen { OnScreen self.now.row self.now.column }
    {
        self.row
    }

    /// The column, 1 to 40 from the left.
    pub fn col(&self) -> u8
        ensures column { result ≡ self.now.column }
        ensures on_screen { OnScreen self.now.row self.now.column }
    {
        self.column
    }

    /// The row of the place.
    #[inline(always)]
    pub fn in_row(&self) -> Row
        ensures row { result ≡ self.now.row }
        ensures in_range { IsRow self.now.row }
    {
        Row { number: self.row }
    }

    /// The column of the place.
    #[inline(always)]
    pub fn in_column(&self) -> Column
        ensures column { result ≡ self.now.column }
        ensures in_range { IsColumn self.now.column }
    {
        Column {
            number: self.column,
        }
    }

    /// The number in reading order, 0 to 959: rows from the top, columns from the left.
    pub fn number(&self) -> u16
        ensures number { result ≡ number self.now.row self.now.column }
        ensures below { result < 960 }
        ensures on_screen { OnScreen self.now.row self.now.column }
    {
        40 * (u16::from(self.row) - 1) + (u16::from(self.column) - 1)
    }
}
