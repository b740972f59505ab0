use stab_base::ClientNo;
use step_tables::Out;

/// What one move of a client told and sent.
#[derive(Debug, Drop)]
pub struct ClientOut {
    pub client: ClientNo,
    pub out: Out,
}
