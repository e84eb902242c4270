//! The short names of control functions.

ghost use Rattle.std.specs.Prelude.{◌≡◌, ◌<◌};
ghost use Rattle.cept_listing.specs.Names.{designation_names, flash_names, name_of};
ghost use Rattle.cept_listing.specs.Names.{parallel_names, serial_names};

/// The serial set, from 8/0 to 9/15.
const SERIAL: [[u8; 3]; 32] = [
    *b"ABK", *b"ANR", *b"ANG", *b"ANY", *b"ANB", *b"ANM", *b"ANC", *b"ANW", // 8/0 to 8/7
    *b"FSH", *b"STD", *b"EBX", *b"SBX", *b"NSZ", *b"DBH", *b"DBW", *b"DBS", // 8/8 to 8/15
    *b"MBK", *b"MSR", *b"MSG", *b"MSY", *b"MSB", *b"MSM", *b"MSC", *b"MSW", // 9/0 to 9/7
    *b"CDY", *b"SPL", *b"STL", *b"CSI", *b"BBD", *b"NBD", *b"HMS", *b"RMS", // 9/8 to 9/15
];

/// The parallel set, from 8/0 to 9/15.
const PARALLEL: [[u8; 3]; 32] = [
    *b"BKF", *b"RDF", *b"GRF", *b"YLF", *b"BLF", *b"MGF", *b"CNF", *b"WHF", // 8/0 to 8/7
    *b"FSH", *b"STD", *b"EBX", *b"SBX", *b"NSZ", *b"DBH", *b"DBW", *b"DBS", // 8/8 to 8/15
    *b"BKB", *b"RDB", *b"GRB", *b"YLB", *b"BLB", *b"MGB", *b"CNB", *b"WHB", // 9/0 to 9/7
    *b"CDY", *b"SPL", *b"STL", *b"CSI", *b"NPO", *b"IPO", *b"TRB", *b"STC", // 9/8 to 9/15
];

/// The flash modes 0 to 6.
const FLASH: [[u8; 3]; 7] = [
    *b"IVF", *b"RIF", *b"FF1", *b"FF2", *b"FF3", *b"ICF", *b"DCF",
];

/// The designations of a set to G0 to G3.
const DESIGNATION: [[u8; 4]; 4] = [*b"GZD4", *b"G1D4", *b"G2D4", *b"G3D4"];

/// The name of a C1 code in the serial set.
pub fn serial_name(n: u8) -> [u8; 3]
    requires { n < 32 }
    ensures { result ≡ name_of serial_names n }
{
    SERIAL[usize::from(n)]
}

/// The name of a C1 code in the parallel set.
pub fn parallel_name(n: u8) -> [u8; 3]
    requires { n < 32 }
    ensures { result ≡ name_of parallel_names n }
{
    PARALLEL[usize::from(n)]
}

/// The name of a flash mode.
pub fn flash_name(k: u8) -> [u8; 3]
    requires { k < 7 }
    ensures { result ≡ name_of flash_names k }
{
    FLASH[usize::from(k)]
}

/// The name of a designation.
pub fn designation_name(g: u8) -> [u8; 4]
    requires { g < 4 }
    ensures { result ≡ name_of designation_names g }
{
    DESIGNATION[usize::from(g)]
}
