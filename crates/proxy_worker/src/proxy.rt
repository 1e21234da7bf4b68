// The proxy of a process.
ghost use Rattle.std.specs.Prelude.{◌≡◌, OnOk};
ghost use Rattle.hybrid_model.specs.Sides.{no_linux};
ghost use Rattle.mck_word.specs.Maps.{no_rows};
ghost use Rattle.proxy_worker.specs.Shown.{HasMirrorRoom, HasServiceRoom, linux_of};

use crate::services::Service;
use crate::workers::Workers;
use key_rows::Rows;
use mck_word::NoMemory;
use mirror_tables::Mirror;
use page_pins::Pins;
use std::alloc::Global;

/// What Linux keeps of a process: the mirror of its table, the pins of its workers, the request of each worker, the
/// services by request, and the number of Clears that were fetched.
#[derive(Drop)]
pub struct Proxy {
    pub(crate) mirror: Mirror,
    pub(crate) pins: Pins,
    pub(crate) workers: Workers,
    pub(crate) services: Rows<Service>,
    pub(crate) cleared: u64,
}

impl Proxy {
    /// The proxy of a new process. Can't fail.
    pub fn new(alloc: Global) -> Proxy
        ensures { linux_of result ≡ no_linux }
    {
        Proxy {
            mirror: Mirror::new(alloc),
            pins: Pins::new(),
            workers: Workers::new(),
            services: Rows::new(alloc),
            cleared: 0,
        }
    }

    /// The mirror of the process's table.
    pub fn mirror(&self) -> &Mirror
        ensures { result.now.map ≡ (linux_of self.now).mirror }
    {
        &self.mirror
    }

    /// The pins of the workers.
    pub fn pins(&self) -> &Pins
        ensures { result.now ≡ (linux_of self.now).pins }
    {
        &self.pins
    }

    /// How many Clears were fetched.
    pub fn cleared(&self) -> u64
        ensures { result ≡ (linux_of self.now).cleared }
    {
        self.cleared
    }

    /// Makes room for the service of one more request. The proxy shows the same, also where memory lacks.
    pub fn reserve_service(&mut self) -> Result<(), NoMemory>
        ensures same { linux_of self.new ≡ linux_of self.old }
        ensures mirror { HasMirrorRoom self.old → HasMirrorRoom self.new }
        ensures room { OnOk result (HasServiceRoom self.new) }
    {
        self.services.reserve(1)?;
        Ok(())
    }

    /// Makes room for one more row of the mirror. The proxy shows the same, also where memory lacks.
    pub fn reserve_mirror(&mut self) -> Result<(), NoMemory>
        ensures same { linux_of self.new ≡ linux_of self.old }
        ensures service { HasServiceRoom self.old → HasServiceRoom self.new }
        ensures room { OnOk result (HasMirrorRoom self.new) }
    {
        self.mirror.reserve()
    }

    /// Drops the whole mirror, as at a process's end. Can't fail.
    pub fn drop_mirror(&mut self, alloc: Global)
        ensures { linux_of self.new ≡ record (linux_of self.old) { mirror = no_rows } }
    {
        self.mirror = Mirror::new(alloc);
    }
}
