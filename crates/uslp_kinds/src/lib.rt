// The refusals of the library, and the kinds of field that a frame carries.
#![tactic(auto)]

ghost use Rattle.std.specs.Prelude.{◌≡◌};
ghost use Rattle.uslp_kinds.specs.Kinds.{source_or_dest_number, source_or_dest_of, bypass_number, bypass_of, command_number, command_of, rule_number, rule_of, fixed_length, protocol_number, protocol_of};
ghost use Rattle.uslp_octets.specs.Octets.{PartOf, part_in, part_at};
ghost use Rattle.uslp_kinds.specs.Answers.{refusal_number, lacking_of, length_of, paper};

use uslp_octets::part;

// The largest values of the fields that a number can be too large for, and the most octets of a frame.
pub const MAX_VC_ID: u8 = 63;

pub const MAX_MAP_ID: u8 = 15;

pub const MAX_COUNT_LEN: u8 = 7;

pub const MAX_FRAME_LEN: usize = 65536;

// What both ends of a link agree on beforehand, which no frame says.
#[derive(Clone, Copy, Debug, PartialEq, Eq)]
pub struct ManagedParameters {
    pub has_fecf: bool,
}

// The two everyday values.
pub const WITH_FECF: ManagedParameters = ManagedParameters { has_fecf: true };

pub const NO_FECF: ManagedParameters = ManagedParameters { has_fecf: false };

// Whether the spacecraft id names the source or the destination of the frame.
#[derive(Clone, Copy, Debug, PartialEq, Eq)]
pub enum SourceOrDestField {
    Source,
    Dest,
}

#[derive(Clone, Copy, Debug, PartialEq, Eq)]
pub enum BypassSequenceControlFlag {
    SequenceControlledQoS,
    ExpeditedQoS,
}

#[derive(Clone, Copy, Debug, PartialEq, Eq)]
pub enum ProtocolControlCommandFlag {
    TfdfContainsUserData,
    TfdfContainsProtocolInfo,
}

#[derive(Clone, Copy, Debug, PartialEq, Eq)]
pub enum ConstructionRule {
    PacketSpanningMultipleFrames,
    StartOfMapaSduOrVcaSdu,
    ContinuingPortionOfMapaSdu,
    OctetStream,
    StartingSegment,
    ContinuingSegment,
    LastSegment,
    NoSegmentation,
}

#[derive(Clone, Copy, Debug, PartialEq, Eq)]
pub enum UslpProtocolId {
    SpacePacketsOrEncapsulation,
    Cop1ControlCommands,
    CopPControlCommands,
    Sdls,
    UserDefinedOctetStream,
    MissionSpecificInfo1MapaSduOrVcaSdu,
    Proximity1PseudoPacketIdentifier1,
    Spdu,
    Proximity1PseudoPacketIdentifier2,
    Idle = 31,
}

// Why a call was refused, with what a person at the bench needs to act.
#[derive(Clone, Copy, Debug, PartialEq, Eq)]
pub enum Refusal {
    ShortSource { found: usize, expected: usize },
    ShortTarget { found: usize, expected: usize },
    Truncated,
    BadVersion(u8),
    BadProtocol(u8),
    BadChecksum { stored: u16, computed: u16 },
    FrameTooShort { length: usize, needed: usize },
    BadCount { count: u64, width: u8 },
    BadPointer(ConstructionRule),
    BadField,
    OcfMissing,
    TooLong,
    NotOpen,
    OtherWidth { frame: u8, opened: u8 },
    AlreadyOpen,
    TableFull,
    TotalFull,
    BadForm,
    LacksFlag,
}

impl Refusal {
    // The number of the row in the table of refusals. No conversion, since what the refusal carries is dropped: `refusal_number`.
    pub fn number(self) -> u8
        ensures { result ≡ refusal_number self }
    {
        match self {
            Refusal::ShortSource { .. } => 1,
            Refusal::ShortTarget { .. } => 2,
            Refusal::Truncated => 3,
            Refusal::BadVersion(_) => 4,
            Refusal::BadProtocol(_) => 5,
            Refusal::BadChecksum { .. } => 6,
            Refusal::FrameTooShort { .. } => 7,
            Refusal::BadCount { .. } => 8,
            Refusal::BadPointer(_) => 9,
            Refusal::BadField => 10,
            Refusal::OcfMissing => 11,
            Refusal::TooLong => 12,
            Refusal::NotOpen => 13,
            Refusal::OtherWidth { .. } => 14,
            Refusal::AlreadyOpen => 15,
            Refusal::TableFull => 16,
            Refusal::TotalFull => 17,
            Refusal::BadForm => 18,
            Refusal::LacksFlag => 19,
        }
    }

    // How many octets SHORT_SOURCE lacks; any other refusal lacks none, which is 0 (`lacking_of`).
    pub fn lacking(self) -> usize
        ensures { result ≡ lacking_of self }
    {
        match self {
            Refusal::ShortSource { found, expected } => expected.saturating_sub(found),
            _ => 0,
        }
    }
}

// The case that the low bit names. Each flag has impls of its own: none may be written by a macro of the repository.
impl From<u8> for SourceOrDestField {
    ghost from_gives = { λ number field. field ≡ source_or_dest_of number };

    fn from(number: u8) -> SourceOrDestField {
        if number % 2 == 1 {
            SourceOrDestField::Dest
        } else {
            SourceOrDestField::Source
        }
    }
}

// The number of a case, by `as`, since std has no `From` of one; so of each kind.
impl From<SourceOrDestField> for u8 {
    ghost from_gives = { λ role number. number ≡ source_or_dest_number role };

    fn from(role: SourceOrDestField) -> u8 {
        role as u8
    }
}

// The case that the low bit names.
impl From<u8> for BypassSequenceControlFlag {
    ghost from_gives = { λ number field. field ≡ bypass_of number };

    fn from(number: u8) -> BypassSequenceControlFlag {
        if number % 2 == 1 {
            BypassSequenceControlFlag::ExpeditedQoS
        } else {
            BypassSequenceControlFlag::SequenceControlledQoS
        }
    }
}

impl From<BypassSequenceControlFlag> for u8 {
    ghost from_gives = { λ bypass number. number ≡ bypass_number bypass };

    fn from(bypass: BypassSequenceControlFlag) -> u8 {
        bypass as u8
    }
}

// The case that the low bit names.
impl From<u8> for ProtocolControlCommandFlag {
    ghost from_gives = { λ number field. field ≡ command_of number };

    fn from(number: u8) -> ProtocolControlCommandFlag {
        if number % 2 == 1 {
            ProtocolControlCommandFlag::TfdfContainsProtocolInfo
        } else {
            ProtocolControlCommandFlag::TfdfContainsUserData
        }
    }
}

impl From<ProtocolControlCommandFlag> for u8 {
    ghost from_gives = { λ command number. number ≡ command_number command };

    fn from(command: ProtocolControlCommandFlag) -> u8 {
        command as u8
    }
}

// The rule that the low three bits name: there are eight, so none is unknown.
impl From<u8> for ConstructionRule {
    ghost from_gives = { λ number rule. rule ≡ rule_of number };

    fn from(number: u8) -> ConstructionRule {
        match number % 8 {
            0 => ConstructionRule::PacketSpanningMultipleFrames,
            1 => ConstructionRule::StartOfMapaSduOrVcaSdu,
            2 => ConstructionRule::ContinuingPortionOfMapaSdu,
            3 => ConstructionRule::OctetStream,
            4 => ConstructionRule::StartingSegment,
            5 => ConstructionRule::ContinuingSegment,
            6 => ConstructionRule::LastSegment,
            _ => ConstructionRule::NoSegmentation,
        }
    }
}

impl From<ConstructionRule> for u8 {
    ghost from_gives = { λ rule number. number ≡ rule_number rule };

    fn from(rule: ConstructionRule) -> u8 {
        rule as u8
    }
}

impl ConstructionRule {
    pub fn applicable_to_fixed_len_tfdz(self) -> bool
        ensures { result ≡ fixed_length self }
    {
        matches!(
            self,
            ConstructionRule::PacketSpanningMultipleFrames
                | ConstructionRule::StartOfMapaSduOrVcaSdu
                | ConstructionRule::ContinuingPortionOfMapaSdu
        )
    }
}

// Refuses BAD_PROTOCOL with the number.
impl TryFrom<u8> for UslpProtocolId {
    type Error = Refusal;

    ghost try_from_gives = { λ number id. paper id ≡ protocol_of number };

    fn try_from(number: u8) -> Result<UslpProtocolId, Refusal> {
        match number {
            0 => Ok(UslpProtocolId::SpacePacketsOrEncapsulation),
            1 => Ok(UslpProtocolId::Cop1ControlCommands),
            2 => Ok(UslpProtocolId::CopPControlCommands),
            3 => Ok(UslpProtocolId::Sdls),
            4 => Ok(UslpProtocolId::UserDefinedOctetStream),
            5 => Ok(UslpProtocolId::MissionSpecificInfo1MapaSduOrVcaSdu),
            6 => Ok(UslpProtocolId::Proximity1PseudoPacketIdentifier1),
            7 => Ok(UslpProtocolId::Spdu),
            8 => Ok(UslpProtocolId::Proximity1PseudoPacketIdentifier2),
            31 => Ok(UslpProtocolId::Idle),
            _ => Err(Refusal::BadProtocol(number)),
        }
    }
}

impl From<UslpProtocolId> for u8 {
    ghost from_gives = { λ id number. number ≡ protocol_number id };

    fn from(id: UslpProtocolId) -> u8 {
        id as u8
    }
}

// The octets that a call wrote to the front of a buffer, as a part of it: nothing where it was refused.
pub fn written(answer: Result<usize, Refusal>, buf: &[u8]) -> &[u8]
    ensures { PartOf buf.entry
        (part_at 0 (length_of (paper answer)) buf.now)
        (part_in 0 (length_of (paper answer)) buf.now)
        result }
{
    part(buf, 0, answer.unwrap_or(0))
}
