// The calls by their names of 01 and 02: a code is a number only where it comes from the caller.
ghost use Rattle.rules.specs.Layout.{configuration};
ghost use Rattle.rules.specs.Step.{bad_caller};
ghost use Rattle.calls.specs.World.{Known, words_of};
ghost use Rattle.calls.specs.Codes.{Asked, Means};

use crate::bad_caller;
use crate::base::refuse;
use crate::error::Error;
use layout::Header;
use rules::{
    ACCESS_CODE, BUILD_SEGMENT_CODE, CLOSE_CODE, CREATE_CODE, LINK_CODE, OPEN_CODE,
    PAGE_ACCESS_CODE, POST_CODE, READ_BLOCK_CODE, RECEIVE_CODE, REGRADE_CODE, RELEASE_PROCESS_CODE,
    RELEASE_SEGMENT_CODE, REMAP_CODE, RENDEZVOUS_CODE, SET_ACCESS_CODE, SET_BITS_CODE, SPAWN_CODE,
    STATUS_CODE, UNLINK_CODE, WRITE_BLOCK_CODE,
};

#[derive(Clone, Copy, PartialEq, Eq)]
pub(crate) enum Code {
    Spawn,
    ReleaseProcess,
    BuildSegment,
    Rendezvous,
    ReleaseSegment,
    SetAccess,
    Create,
    Open,
    Close,
    Link,
    Unlink,
    SetBits,
    ReadBlock,
    WriteBlock,
    Post,
    Receive,
    Status,
    Access,
    Remap,
    PageAccess,
    Regrade,
}

// "3 code not 1..18"; "codes now run to 20"; and the desk's
impl TryFrom<u32> for Code {
    type Error = Error;

    ghost try_from_gives = { Means };

    fn try_from(code: u32) -> Result<Self, Error> {
        match code {
            SPAWN_CODE => Ok(Code::Spawn),
            RELEASE_PROCESS_CODE => Ok(Code::ReleaseProcess),
            BUILD_SEGMENT_CODE => Ok(Code::BuildSegment),
            RENDEZVOUS_CODE => Ok(Code::Rendezvous),
            RELEASE_SEGMENT_CODE => Ok(Code::ReleaseSegment),
            SET_ACCESS_CODE => Ok(Code::SetAccess),
            CREATE_CODE => Ok(Code::Create),
            OPEN_CODE => Ok(Code::Open),
            CLOSE_CODE => Ok(Code::Close),
            LINK_CODE => Ok(Code::Link),
            UNLINK_CODE => Ok(Code::Unlink),
            SET_BITS_CODE => Ok(Code::SetBits),
            READ_BLOCK_CODE => Ok(Code::ReadBlock),
            WRITE_BLOCK_CODE => Ok(Code::WriteBlock),
            POST_CODE => Ok(Code::Post),
            RECEIVE_CODE => Ok(Code::Receive),
            STATUS_CODE => Ok(Code::Status),
            ACCESS_CODE => Ok(Code::Access),
            REMAP_CODE => Ok(Code::Remap),
            PAGE_ACCESS_CODE => Ok(Code::PageAccess),
            REGRADE_CODE => Ok(Code::Regrade),
            _ => Err(Error::XbdKcl),
        }
    }
}

// What refuses a call before its own list: the caller, then the code.
pub(crate) fn asked(t: &[u32], n: Header, caller: u32, code: u32) -> Result<Code, Error>
    requires { Known t.now n }
    ensures { Asked (bad_caller (configuration t.now) (words_of t.now) caller) code result }
{
    refuse([(bad_caller(t, n, caller), Error::XbPrSd)])?;
    Code::try_from(code)
}
