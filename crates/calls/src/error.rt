// The refusals by their names of 01 and 02: a call ends in its words, or in one of these; the number goes to the caller alone.
ghost use Rattle.std.specs.Prelude.{◌≡◌};
ghost use Rattle.calls.specs.Refusing.{number_of};

use rules::{
    XB_NO_MES, XB_PARAM, XB_PR_SD, XB_SG_DES, XB_SG_SD, XB_SG_SZ, XB_SZ, XB_TAB, XBAD_BLOCK_NO,
    XBAD_LINK, XBAD_MODES, XBAD_OD, XBAD_ST_CAP, XBAD_SUBTYPE_MATCH, XBD_KCL, XBUSY, XDAP_VIOL,
    XDUP_SG, XEND_OF_FILE, XIN_SG_ALD_MAP, XN_SG_DES, XNO_ACC, XNO_OBJ, XNO_OWNER, XNO_PRIV,
    XNO_PROC, XNO_S_PRIV, XNO_SPACE, XNOT_READABLE, XNOT_WRITABLE, XOD_SPACE, XOUT_SG_ALD_UMP,
    XPOST_EH, XSG_NO_ACC, XSH_SG, XVRT_MM_CFL,
};

#[derive(Clone, Copy, PartialEq, Eq)]
pub(crate) enum Error {
    XbTab,
    XbPrSd,
    XbdKcl,
    XbParam,
    XbSz,
    XbSgSz,
    XbadModes,
    XnSgDes,
    XbSgDes,
    XbadOd,
    XbSgSd,
    XnoObj,
    XnoAcc,
    XnoOwner,
    XnoPriv,
    XdapViol,
    XsgNoAcc,
    XdupSg,
    Xbusy,
    XnotReadable,
    XnotWritable,
    XbadBlockNo,
    XendOfFile,
    XbadLink,
    XodSpace,
    XnoSpace,
    XnoProc,
    XpostEh,
    XbNoMes,
    XoutSgAldUmp,
    XinSgAldMap,
    XvrtMmCfl,
    XshSg,
    XnoSPriv,
    XbadStCap,
    XbadSubtypeMatch,
}

impl Error {
    // "Error numbers."
    pub(crate) fn number(self) -> u32
        ensures { result ≡ number_of self }
    {
        match self {
            Error::XbTab => XB_TAB,
            Error::XbPrSd => XB_PR_SD,
            Error::XbdKcl => XBD_KCL,
            Error::XbParam => XB_PARAM,
            Error::XbSz => XB_SZ,
            Error::XbSgSz => XB_SG_SZ,
            Error::XbadModes => XBAD_MODES,
            Error::XnSgDes => XN_SG_DES,
            Error::XbSgDes => XB_SG_DES,
            Error::XbadOd => XBAD_OD,
            Error::XbSgSd => XB_SG_SD,
            Error::XnoObj => XNO_OBJ,
            Error::XnoAcc => XNO_ACC,
            Error::XnoOwner => XNO_OWNER,
            Error::XnoPriv => XNO_PRIV,
            Error::XdapViol => XDAP_VIOL,
            Error::XsgNoAcc => XSG_NO_ACC,
            Error::XdupSg => XDUP_SG,
            Error::Xbusy => XBUSY,
            Error::XnotReadable => XNOT_READABLE,
            Error::XnotWritable => XNOT_WRITABLE,
            Error::XbadBlockNo => XBAD_BLOCK_NO,
            Error::XendOfFile => XEND_OF_FILE,
            Error::XbadLink => XBAD_LINK,
            Error::XodSpace => XOD_SPACE,
            Error::XnoSpace => XNO_SPACE,
            Error::XnoProc => XNO_PROC,
            Error::XpostEh => XPOST_EH,
            Error::XbNoMes => XB_NO_MES,
            Error::XoutSgAldUmp => XOUT_SG_ALD_UMP,
            Error::XinSgAldMap => XIN_SG_ALD_MAP,
            Error::XvrtMmCfl => XVRT_MM_CFL,
            Error::XshSg => XSH_SG,
            Error::XnoSPriv => XNO_S_PRIV,
            Error::XbadStCap => XBAD_ST_CAP,
            Error::XbadSubtypeMatch => XBAD_SUBTYPE_MATCH,
        }
    }
}
