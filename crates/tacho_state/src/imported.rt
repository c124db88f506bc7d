/// The result of an import.
#[derive(Clone, Copy, Debug, PartialEq, Eq)]
pub enum Imported {
    /// The file is now the driver's download with this number.
    Added { driver: u32, number: u32 },
    /// The driver's downloads already gave all that the file gives: the file was not kept.
    Repeated { driver: u32 },
}
