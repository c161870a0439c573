//! The fields of a volume record while they are read.
ghost use Rattle.std.specs.Prelude.{◌≤◌, length, unwrap_or, []};
ghost use Rattle.ldm_payloads.specs.Seen.{seen};

/// The first fields of a volume after its name, where they stand.
#[derive(Clone, Copy)]
pub struct VolumeMain<'a> {
    pub kind: &'a [u8],
    pub second: &'a [u8],
    pub fixed21: [u8; 21],
    pub children: u64,
    pub fixed16: [u8; 16],
    pub size: u64,
    pub fixed4: [u8; 4],
    pub part_type: u8,
    pub guid: [u8; 16],
    pub ghost kind_short: { length kind.now ≤ 255 },
    pub ghost second_short: { length second.now ≤ 255 },
}

/// The optional fields of a volume, and the tail, where they stand.
#[derive(Clone, Copy)]
pub struct VolumeMore<'a> {
    pub id1: Option<&'a [u8]>,
    pub id2: Option<&'a [u8]>,
    pub size2: Option<u64>,
    pub hint: Option<&'a [u8]>,
    pub tail: &'a [u8],
    pub ghost id1_short: { length (unwrap_or (seen id1) []) ≤ 255 },
    pub ghost id2_short: { length (unwrap_or (seen id2) []) ≤ 255 },
    pub ghost hint_short: { length (unwrap_or (seen hint) []) ≤ 255 },
}
