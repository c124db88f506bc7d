use tacho_time::Day;

/// What the list of all drivers says of one driver.
#[derive(Debug, Drop)]
pub struct DriverSummary {
    /// The driver's number: 1 to 999,999.
    pub number: u32,
    /// The holder of the driver's card: fifteen bytes.
    pub holder: Vec<u8>,
    /// The day from which the driver is examined.
    pub base: Day,
    /// How many card files of the driver were accepted.
    pub downloads: u32,
    /// How many entries the driver has, including withdrawn ones.
    pub entries: u32,
    /// The driver's name.
    pub name: String,
}
